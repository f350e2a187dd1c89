//! A trend log that is kept from line to line.

ghost use Rattle.std.specs.Prelude.{◌≡◌, IfOk, None};
ghost use Rattle.bac_log.specs.Entry.{IsLoggable};
ghost use Rattle.bac_log.specs.History.{IsLoggableOp};

use crate::bench::Bench;
use crate::fault::Fault;
use crate::records::entry_text;
use crate::text::{digits, none, shown};
use crate::words::{number, pair, word};
use bac_apdu::{Extent, ReadRange};
use bac_log::{Datum, Entry, LogFault, LogOp, Selected, TrendLog, replay};
use bac_wire::{Datagram, Date4, ObjectId, Stamp, Time4};
use std::alloc::Global;
use std::fmt::Debug;
use std::str::SplitWhitespace;

/// 2024-05-06, a Monday.
const DATE: Date4 = Date4 {
    year: 124,
    month: 5,
    day: 6,
    weekday: 1,
};

pub(crate) fn answer(
    alloc: Global,
    call: &str,
    words: &mut SplitWhitespace,
    bench: &mut Bench,
) -> Option<Result<String, Fault>> {
    Some(match call {
        "log" => made(alloc, words, bench),
        "replay" => replayed(alloc, words, bench),
        "replay_nothing" => nothing_replayed(alloc, words, bench),
        _ => return on_log(alloc, call, words, bench.log.as_mut()?),
    })
}

/// The calls on the log that is kept.
fn on_log(
    alloc: Global,
    call: &str,
    words: &mut SplitWhitespace,
    log: &mut TrendLog,
) -> Option<Result<String, Fault>> {
    Some(match call {
        "append" => append(alloc, words, log),
        "fill" => fill(alloc, words, log),
        "purge" => purge(alloc, log),
        "enable" => set_enabled(alloc, true, log),
        "disable" => set_enabled(alloc, false, log),
        "get" => held(alloc, words, log),
        "counts" => counts(alloc, log),
        "answer" => answered(alloc, words, log),
        "ack" => ack(alloc, words, log),
        _ => return None,
    })
}

/// 2024-05-06, 07:08:09.10.
fn now() -> Result<Stamp, Fault> {
    match Stamp::new(2024, 5, 6, 7, 8, 9, 10) {
        Some(stamp) => Ok(stamp),
        None => Err(Fault::BadLine),
    }
}

fn second_of(number: u32) -> Result<u8, Fault> {
    match u8::try_from(number) {
        Ok(second) => Ok(second),
        Err(_) => Err(Fault::BadLine),
    }
}

/// 07:08 and this second, and ten hundredths.
fn time(second: u8) -> Time4 {
    Time4 {
        hour: 7,
        minute: 8,
        second,
        hundredth: 10,
    }
}

/// A sample at that second, with flags 00.
fn sample(second: u8, value: u32) -> Result<Entry, Fault>
    ensures { IfOk result IsLoggable }
{
    let entry = Entry {
        date: DATE,
        time: time(second),
        datum: Datum::Enumerated(value),
        flags: Some(0),
    };
    if !entry.loggable() {
        return Err(Fault::BadLine);
    }
    Ok(entry)
}

/// A log that is kept from here on, with its total.
fn kept(
    alloc: Global,
    made: Result<TrendLog, LogFault>,
    bench: &mut Bench,
) -> Result<String, Fault> {
    match made {
        Ok(log) => {
            let total = log.total();
            bench.log = Some(log);
            Ok(format!(in alloc; "total {total}")?)
        }
        Err(fault) => shown(alloc, &fault),
    }
}

/// Capacity, and numbers used before.
fn made(alloc: Global, words: &mut SplitWhitespace, bench: &mut Bench) -> Result<String, Fault> {
    let (capacity, logged) = pair::<u32>(words)?;
    kept(alloc, TrendLog::new(alloc, capacity, logged), bench)
}

/// Capacity, numbers used before, and five operations.
fn replayed(
    alloc: Global,
    words: &mut SplitWhitespace,
    bench: &mut Bench,
) -> Result<String, Fault> {
    let (capacity, logged) = pair::<u32>(words)?;
    let ops = [op(words)?, op(words)?, op(words)?, op(words)?, op(words)?];
    kept(alloc, replay(alloc, capacity, logged, &ops), bench)
}

fn nothing_replayed(
    alloc: Global,
    words: &mut SplitWhitespace,
    bench: &mut Bench,
) -> Result<String, Fault> {
    let (capacity, logged) = pair::<u32>(words)?;
    kept(alloc, replay(alloc, capacity, logged, &[]), bench)
}

/// `purge`, `enable`, `disable`, or the value of a sample.
fn op(words: &mut SplitWhitespace) -> Result<LogOp, Fault>
    ensures { IfOk result IsLoggableOp }
{
    let now = now()?;
    match word(words)? {
        "purge" => Ok(LogOp::Purge(now)),
        "enable" => Ok(LogOp::SetEnabled(true, now)),
        "disable" => Ok(LogOp::SetEnabled(false, now)),
        word => match word.parse::<u32>() {
            Ok(value) => Ok(LogOp::Append(sample(9, value)?)),
            Err(_) => Err(Fault::BadLine),
        },
    }
}

fn purge(alloc: Global, log: &mut TrendLog) -> Result<String, Fault> {
    shown(alloc, &log.purge(now()?))
}

fn set_enabled(alloc: Global, enabled: bool, log: &mut TrendLog) -> Result<String, Fault> {
    shown(alloc, &log.set_enabled(enabled, now()?))
}

/// A second and a value.
fn append(alloc: Global, words: &mut SplitWhitespace, log: &mut TrendLog) -> Result<String, Fault> {
    let (second, value) = (number::<u8>(words)?, number::<u32>(words)?);
    shown(alloc, &log.append(sample(second, value)?))
}

/// This many samples of 0, of which so many come in each second.
fn fill(alloc: Global, words: &mut SplitWhitespace, log: &mut TrendLog) -> Result<String, Fault> {
    let (count, each) = pair::<u32>(words)?;
    if each == 0 {
        return Err(Fault::BadLine);
    }
    for index in 0..count {
        add(log, index / each)?;
    }
    counts(alloc, log)
}

/// A sample of 0 at that second.
fn add(log: &mut TrendLog, second: u32) -> Result<(), Fault> {
    let sample = sample(second_of(second)?, 0)?;
    match log.append(sample) {
        Ok(_) => Ok(()),
        Err(_) => Err(Fault::BadLine),
    }
}

/// The record at a position.
fn held(alloc: Global, words: &mut SplitWhitespace, log: &TrendLog) -> Result<String, Fault> {
    match log.get(number::<u32>(words)?) {
        Some(entry) => entry_text(alloc, &entry),
        None => none(alloc),
    }
}

fn counts(alloc: Global, log: &TrendLog) -> Result<String, Fault> {
    let state = if log.enabled() { "enabled" } else { "disabled" };
    Ok(format!(in alloc;
        "count {}, total {}, capacity {}, {state}",
        log.count(),
        log.total(),
        log.capacity(),
    )?)
}

/// `all`, or a kind of reference, the reference and a count.
fn extent(words: &mut SplitWhitespace) -> Result<Extent, Fault> {
    let kind = word(words)?;
    if kind == "all" {
        return Ok(Extent::All);
    }
    let reference = number::<u32>(words)?;
    let count = number::<i32>(words)?;
    match kind {
        "position" => Ok(Extent::ByPosition { reference, count }),
        "number" => Ok(Extent::ByNumber { reference, count }),
        "time" => from_second(reference, count),
        _ => Err(Fault::BadLine),
    }
}

fn from_second(second: u32, count: i32) -> Result<Extent, Fault> {
    let time = time(second_of(second)?);
    Ok(Extent::ByTime {
        date: DATE,
        time,
        count,
    })
}

/// The first position, how many records, the result flags and the first number.
fn selected(alloc: Global, selected: &Selected) -> Result<String, Fault> {
    Ok(format!(in alloc;
        "{} {} {:02x} {:?}",
        selected.first_position, selected.how_many, selected.flags, selected.first_number,
    )?)
}

fn or_fault<T: Debug + Drop>(
    alloc: Global,
    answered: Result<Selected, T>,
) -> Result<String, Fault> {
    match answered {
        Ok(reply) => selected(alloc, &reply),
        Err(fault) => shown(alloc, &fault),
    }
}

/// The most octets of the ACK, and the range.
fn answered(alloc: Global, words: &mut SplitWhitespace, log: &TrendLog) -> Result<String, Fault> {
    let limit = number::<usize>(words)?;
    or_fault(alloc, log.answer(&extent(words)?, limit))
}

/// A request for records of Trend Log 1.
fn request(extent: Extent) -> Result<ReadRange, Fault>
    ensures { IfOk result (λ r. (r.property ≡ 131) × (r.index ≡ None)) }
{
    match ObjectId::new(20, 1) {
        Some(object) => Ok(ReadRange {
            object,
            property: 131,
            index: None,
            extent,
        }),
        None => Err(Fault::BadLine),
    }
}

/// The invoke ID, how many octets 55 the datagram begins with, the most octets of the ACK, and the
/// range: what is selected, and the octets after.
fn ack(alloc: Global, words: &mut SplitWhitespace, log: &TrendLog) -> Result<String, Fault> {
    let (invoke, before) = (number::<u8>(words)?, number::<usize>(words)?);
    let limit = number::<usize>(words)?;
    let request = request(extent(words)?)?;
    let Some(mut out) = Datagram::of(&[0x55; 1501]) else {
        return Err(Fault::BadLine);
    };
    out.cut(before);
    let head = out.copy();
    let answered = log.answer_into(invoke, &request, limit, &mut out);
    let octets = behind(alloc, &head, &out)?;
    let text = or_fault(alloc, answered)?;
    Ok(format!(in alloc; "{text} = {octets}")?)
}

/// The octets after what the datagram began with.
fn behind(alloc: Global, head: &Datagram, out: &Datagram) -> Result<String, Fault> {
    match out.octets().strip_prefix(head.octets()) {
        Some(octets) => digits(alloc, octets),
        None => Err(Fault::BadLine),
    }
}
