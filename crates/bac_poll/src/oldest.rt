//! The oldest records, and the count where none is shown.

ghost use Rattle.std.specs.Prelude.{◌≡◌, IfOk};
ghost use Rattle.bac_poll.specs.Known.{record_at};
ghost use Rattle.bac_poll.specs.State.{KeptAs, reply_as};
ghost use Rattle.bac_poll.specs.Turns.{turned};
ghost use Rattle.bac_poll.specs.Oldest.{by_count, by_number, drops, is_cut, is_first};
ghost use Rattle.bac_poll.specs.Oldest.{logged, sees, sees_before, sees_by, sees_last, sees_newest};
ghost use Rattle.bac_poll.specs.Oldest.{sees_news, sees_none, sees_same};
ghost use Rattle.bac_poll.specs.Oldest.{weighed};

use crate::joins::{ask_each, ask_newest, at_hour, find, hour};
use bac_known::{
    Means, Reply, first_number, is_ahead, is_none, last_in, number_before, number_in, number_or,
    record_at, records_behind,
};
use bac_poll_steps::{Aim, LogState, PollEnd, Stage, Turn};
use bac_walk::Numbered;
use std::alloc::{AllocError, Global};

// All lie behind the newest known one.
fn drop_to(
    state: &mut LogState,
    alloc: Global,
    back: bool,
    records: Vec<Numbered>,
) -> Result<Turn, AllocError>
    ensures { IfOk result (λ turn. turned state.new turn ≡ drops state.old back records.items) }
{
    if back && !state.is_first(first_number(&records)) {
        Ok(state.ask_back(alloc, Aim::Finds, records))
    } else {
        state.ask_word(alloc, records)
    }
}

// They begin before the newest known one, and don't show it.
fn see_before(
    state: &mut LogState,
    alloc: Global,
    cut: bool,
    records: Vec<Numbered>,
) -> Result<Turn, AllocError>
    ensures { IfOk result (λ turn. turned state.new turn
        ≡ sees_before state.old cut records.items) }
{
    if cut {
        let reference = number_or(0, last_in(&records));
        state.held = records;
        Ok(state.ask_at(alloc, Stage::ByNumber, reference))
    } else {
        state.tell_another_by(alloc, records)
    }
}

/// A reply to the question for the last of them.
pub(crate) fn take_by_number(
    state: &mut LogState,
    alloc: Global,
    held: Vec<Numbered>,
    records: Vec<Numbered>,
) -> Result<Turn, AllocError>
    ensures { IfOk result (λ turn. turned state.new turn
        ≡ by_number state.old held.items records.items) }
{
    if is_none(&records) {
        Ok(state.ends(alloc, PollEnd::NoneByNumber))
    } else {
        state.tell_another_by(alloc, held)
    }
}

// They show no known one.
fn see_none(
    state: &mut LogState,
    alloc: Global,
    back: bool,
    cut: bool,
    records: Vec<Numbered>,
) -> Result<Turn, AllocError>
    ensures { IfOk result (λ turn. turned state.new turn
        ≡ sees_none state.old back cut records.items) }
{
    if is_ahead(state.next, first_number(&records)) {
        drop_to(state, alloc, back, records)
    } else {
        see_before(state, alloc, cut, records)
    }
}

// They end with the newest, which wasn't found by number.
fn see_last(
    state: &mut LogState,
    alloc: Global,
    cut: bool,
    news: Vec<Numbered>,
) -> Result<Turn, AllocError>
    ensures { IfOk result (λ turn. turned state.new turn ≡ sees_last state.old cut news.items) }
{
    if is_none(&news) && cut {
        Ok(state.ends(alloc, PollEnd::NoneByNumber))
    } else {
        state.bring(alloc, news)
    }
}

// What follows the newest is kept.
fn see_news(
    state: &mut LogState,
    alloc: Global,
    asked: bool,
    cut: bool,
    news: Vec<Numbered>,
) -> Result<Turn, AllocError>
    ensures { IfOk result (λ turn. turned state.new turn
        ≡ sees_news state.old asked cut news.items) }
{
    if is_none(&news) && !asked {
        Ok(state.asks(alloc))
    } else {
        see_last(state, alloc, cut, news)
    }
}

// They show known ones as they are known.
fn see_newest(
    state: &mut LogState,
    alloc: Global,
    number: u32,
    cut: bool,
    records: Vec<Numbered>,
) -> Result<Turn, AllocError>
    ensures { IfOk result (λ turn. (kept : KeptAs) → kept.number ≡ number
        → turned state.new turn ≡ sees_newest state.old kept cut records.items
        (record_at number records.items)) }
{
    match record_at(number, records.as_slice()) {
        Some(held) => {
            let asked = state.alone;
            find(state, alloc, held)?;
            see_news(state, alloc, asked, cut, records_behind(number, records))
        }
        None => {
            if state.alone {
                see_before(state, alloc, cut, records)
            } else {
                Ok(ask_newest(state, alloc, number))
            }
        }
    }
}

// The same where the newest is known.
fn see_same(
    state: &mut LogState,
    alloc: Global,
    cut: bool,
    records: Vec<Numbered>,
) -> Result<Turn, AllocError>
    ensures { IfOk result (λ turn. turned state.new turn
        ≡ sees_same state.old cut records.items state.old.newest) }
{
    match &state.newest {
        Some(kept) => {
            let number = kept.number;
            see_newest(state, alloc, number, cut, records)
        }
        None => state.tell_another_by(alloc, records),
    }
}

// By what they mean.
fn see_by(
    state: &mut LogState,
    alloc: Global,
    back: bool,
    cut: bool,
    records: Vec<Numbered>,
    means: Means,
) -> Result<Turn, AllocError>
    ensures { IfOk result (λ turn. turned state.new turn
        ≡ sees_by state.old back cut records.items means) }
{
    match means {
        Means::Unshown => see_none(state, alloc, back, cut, records),
        Means::Same => see_same(state, alloc, cut, records),
        Means::Shifted(by) => {
            let line = hour(state, by);
            let turn = see_same(state, alloc, cut, records)?;
            Ok(at_hour(state, by, line, turn))
        }
        Means::Partly => {
            let number = number_in(&state.newest);
            ask_each(state, alloc, Vec::new(alloc), number)
        }
        Means::Another => state.tell_another_by(alloc, records),
    }
}

/// Records came that were asked for without the known ones.
pub(crate) fn see(
    state: &mut LogState,
    alloc: Global,
    back: bool,
    cut: bool,
    records: Vec<Numbered>,
) -> Result<Turn, AllocError>
    ensures { IfOk result (λ turn. turned state.new turn
        ≡ sees state.old back cut records.items) }
{
    let means = state.means_in(alloc, records.as_slice())?;
    see_by(state, alloc, back, cut, records, means)
}

/// Whether a reply by time needn't be all that the log holds.
pub(crate) fn is_cut(state: &LogState, reply: &Reply) -> bool
    ensures { result ≡ is_cut state.now (reply_as reply.now) }
{
    let asked = usize::from(state.count.number());
    reply.more || (reply.records.len() == asked && !reply.last)
}

// How many records were logged before the number that comes next.
fn logged(state: &LogState) -> u32
    ensures { result ≡ logged state.now }
{
    if state.has_logged() {
        number_before(state.next)
    } else {
        0
    }
}

// No record is shown, and so many were logged.
fn weigh_by(state: &mut LogState, alloc: Global, total: u32) -> Result<Turn, AllocError>
    ensures { IfOk result (λ turn. turned state.new turn ≡ weighed state.old total) }
{
    if total == logged(state) {
        state.confirm(alloc)?;
        return Ok(state.ends(alloc, PollEnd::CaughtUp));
    }
    if 0 < total && is_ahead(state.next, total) {
        state.total = total;
        return Ok(state.ask_at(alloc, Stage::UpTo(Aim::Finds), total));
    }
    state.tell_another_of(alloc, total)
}

/// The count of a log that shows no record.
pub(crate) fn take_count(
    state: &mut LogState,
    alloc: Global,
    count: Option<u32>,
) -> Result<Turn, AllocError>
    ensures { IfOk result (λ turn. turned state.new turn ≡ by_count state.old count) }
{
    match count {
        Some(total) => weigh_by(state, alloc, total),
        None => Ok(state.ends(alloc, PollEnd::ShowsNone)),
    }
}
