//! Texts of what a poll asks and of what an answer brings.

use crate::fault::Fault;
use bac_apdu::Extent;
use bac_link::Request;
use bac_poll::{Line, LogPoll, PollEnd, Told, Turn};
use bac_print::push_datum;
use bac_walk::Numbered;
use std::alloc::Global;

/// What is asked.
pub(crate) fn asked(alloc: Global, poll: &LogPoll) -> Result<String, Fault> {
    Ok(match poll.question() {
        Request::ReadRange(range) => match range.extent {
            Extent::ByNumber { reference, count } => {
                format!(in alloc; "ask number {reference} {count}")?
            }
            Extent::ByTime { count, .. } => format!(in alloc; "ask oldest {count}")?,
            Extent::ByPosition { .. } => format!(in alloc; "ask position")?,
            Extent::All => format!(in alloc; "ask all")?,
        },
        Request::ReadProperty(read) => {
            let property = read.property;
            format!(in alloc; "ask property {property}")?
        }
        Request::WriteProperty(_) => format!(in alloc; "write")?,
    })
}

/// What an answer brings, in the order in which it is committed, and what is asked then.
pub(crate) fn turned(alloc: Global, poll: &LogPoll, turn: Turn) -> Result<String, Fault> {
    let mut text = rows(alloc, &turn)?;
    if let Some(line) = turn.line {
        text.push_str(told(alloc, line)?.as_str())?;
    }
    match turn.end {
        Some(end) => {
            text.push_str(ended(end))?;
            text.push_str(word(alloc, poll.word())?.as_str())?;
        }
        None => text.push_str(asked(alloc, poll)?.as_str())?,
    }
    Ok(text)
}

/// How many records it brings.
pub(crate) fn counted(alloc: Global, turn: &Turn) -> Result<String, Fault> {
    let count = turn.entries.len();
    Ok(format!(in alloc; "{count} records")?)
}

/// Its beginning, gaps and records.
fn rows(alloc: Global, turn: &Turn) -> Result<String, Fault> {
    let mut text = String::new(alloc);
    if let Some(begins) = turn.begins {
        let number = begins.number;
        let kind = if begins.counted { " by the count" } else { "" };
        text.push_str(format!(in alloc; "begin {number}{kind}; ")?.as_str())?;
    }
    if let Some(gap) = turn.missing {
        let kind = if turn.doubtful { "doubtful " } else { "" };
        text.push_str(format!(in alloc;
            "{kind}gap {} to {}; ",
            gap.first,
            until(gap.before)
        )?.as_str())?;
    }
    if turn.anew {
        text.push_str("epoch; ")?;
    }
    if let Some(gap) = turn.gap {
        text.push_str(format!(in alloc; "gap {} to {}; ", gap.first, until(gap.before))?.as_str())?;
    }
    for held in turn.entries.as_slice() {
        text.push_str(record(alloc, held)?.as_str())?;
    }
    Ok(text)
}

/// A record's number and what was logged.
fn record(alloc: Global, held: &Numbered) -> Result<String, Fault> {
    let mut datum = Vec::new(alloc);
    push_datum(&mut datum, &held.entry.datum)?;
    let number = held.number;
    match str::from_utf8(datum.as_slice()) {
        Ok(datum) => Ok(format!(in alloc; "record {number} {datum}; ")?),
        Err(_) => Err(Fault::BadLine),
    }
}

/// The number before this one: the last that there is before 1.
fn until(number: u32) -> u32 {
    if number <= 1 { u32::MAX } else { number - 1 }
}

fn told(alloc: Global, line: Line) -> Result<String, Fault> {
    match line {
        Line::AtHour(by) => at_hour(alloc, by, ""),
        Line::AtHourOrBegan(by) => at_hour(alloc, by, ", or began anew"),
        Line::BeganAnew => Ok(format!(in alloc; "line began anew; ")?),
        Line::BeganOrDropped => Ok(format!(in alloc; "line began anew, or dropped records; ")?),
        Line::DroppedOrBegan(first, before) => dropped(alloc, first, before),
    }
}

/// So many quarter hours later, and a hundred.
fn at_hour(alloc: Global, by: u32, doubt: &str) -> Result<String, Fault> {
    let (quarters, way) = if by < 100 {
        (100 - by, "earlier")
    } else {
        (by - 100, "later")
    };
    let (hours, minutes) = (quarters / 4, quarters % 4 * 15);
    Ok(format!(in alloc; "line shows its records {hours}:{minutes:02} h {way}{doubt}; ")?)
}

fn dropped(alloc: Global, first: u32, before: u32) -> Result<String, Fault> {
    if first == before {
        return Ok(format!(in alloc; "line goes on at {first}, or began anew; ")?);
    }
    let last = until(before);
    Ok(format!(in alloc; "line dropped {first} to {last}, or began anew; ")?)
}

/// The word that is on record then.
fn word(alloc: Global, told: &Told) -> Result<String, Fault> {
    let restart = match str::from_utf8(told.restart.as_slice()) {
        Ok("") => "-",
        Ok(restart) => restart,
        Err(_) => return Err(Fault::BadLine),
    };
    Ok(match told.revision {
        Some(revision) => format!(in alloc; "; word {restart} {revision}")?,
        None => format!(in alloc; "; word {restart} -")?,
    })
}

fn ended(end: PollEnd) -> &'static str {
    match end {
        PollEnd::CaughtUp => "end 0",
        PollEnd::SaysMore => "line the last reply said that more is there; end 4",
        PollEnd::ShowsNone => "line shows no record; end 0",
        PollEnd::NoneByNumber => "line shows no record by number; end 4",
        PollEnd::Contradicts => "line its records contradict each other; end 4",
        PollEnd::Fault(_) => "end bad reply",
    }
}
