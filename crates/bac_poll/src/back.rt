//! What stands before the first of the records that are held back.

ghost use Rattle.std.specs.Prelude.{◌≡◌, IfOk};
ghost use Rattle.bac_poll.specs.Turns.{last_in, turned};
ghost use Rattle.bac_poll.specs.Back.{back, back_alone, back_by, back_done, back_lost, back_more};
ghost use Rattle.bac_poll.specs.Back.{back_shown};
ghost use Rattle.bac_poll.specs.Back.{is_front, shown_last};

use crate::oldest::see;
use bac_known::{
    Kept, Means, Shown, distance, first_in, first_number, is_one, last_in, number_before,
    number_or, shown_as,
};
use bac_poll_steps::{Aim, LogState, PollEnd, Stage, Turn};
use bac_walk::Numbered;
use std::alloc::{AllocError, Global};

// Nothing stands before these.
fn end_back(
    state: &mut LogState,
    alloc: Global,
    aim: Aim,
    records: Vec<Numbered>,
) -> Result<Turn, AllocError>
    ensures { IfOk result (λ turn. turned state.new turn
        ≡ back_done state.old aim records.items) }
{
    match aim {
        Aim::Finds => see(state, alloc, false, false, records),
        Aim::Renews => state.bring_behind(alloc, records),
        Aim::Starts => state.start(alloc, records),
    }
}

// The first of them is another one by now.
fn lose_back(state: &mut LogState, alloc: Global, aim: Aim) -> Turn
    ensures { turned state.new result ≡ back_lost state.old aim }
{
    match aim {
        Aim::Finds => state.ask_oldest(alloc, Aim::Finds),
        Aim::Renews => state.ask_oldest(alloc, Aim::Renews),
        Aim::Starts => state.ask_at(alloc, Stage::Counts(Aim::Starts), state.reference),
    }
}

// Whether what stands before these doesn't count.
fn is_front(state: &LogState, records: &Vec<Numbered>, means: Means) -> bool
    ensures { result ≡ is_front state.now records.now.items means }
{
    match means {
        Means::Unshown => state.is_first(first_number(records)),
        Means::Same => true,
        Means::Shifted(_) => true,
        Means::Partly => true,
        Means::Another => true,
    }
}

// These stand before the first of the ones that were held back.
fn go_back(
    state: &mut LogState,
    alloc: Global,
    aim: Aim,
    records: Vec<Numbered>,
) -> Result<Turn, AllocError>
    ensures { IfOk result (λ turn. turned state.new turn
        ≡ back_more state.old aim records.items) }
{
    let means = state.means_in(alloc, records.as_slice())?;
    if is_front(state, &records, means) {
        end_back(state, alloc, aim, records)
    } else {
        Ok(state.ask_back(alloc, aim, records))
    }
}

// It came alone.
fn take_alone(
    state: &mut LogState,
    alloc: Global,
    aim: Aim,
    held: Vec<Numbered>,
) -> Result<Turn, AllocError>
    ensures { IfOk result (λ turn. turned state.new turn ≡ back_alone state.old aim held.items) }
{
    if state.more || state.count.number() == 1 {
        let reference = number_before(first_number(&held));
        state.held = held;
        Ok(state.ask_at(alloc, Stage::Back(aim), reference))
    } else {
        end_back(state, alloc, aim, held)
    }
}

// A reply ends with that first one, as this.
fn take_shown(
    state: &mut LogState,
    alloc: Global,
    aim: Aim,
    held: Vec<Numbered>,
    records: Vec<Numbered>,
    shown: Shown,
) -> Result<Turn, AllocError>
    ensures { IfOk result (λ turn. turned state.new turn
        ≡ back_shown state.old aim held.items records.items shown) }
{
    match shown {
        Shown::Equal => {
            if is_one(&records) {
                take_alone(state, alloc, aim, held)
            } else {
                go_back(state, alloc, aim, records)
            }
        }
        Shown::Unshown => Ok(lose_back(state, alloc, aim)),
        Shown::Moved(_) => Ok(lose_back(state, alloc, aim)),
        Shown::Another => Ok(lose_back(state, alloc, aim)),
    }
}

// By the last record of a reply.
fn take_back_by(
    state: &mut LogState,
    alloc: Global,
    aim: Aim,
    held: Vec<Numbered>,
    records: Vec<Numbered>,
) -> Result<Turn, AllocError>
    ensures { IfOk result (λ turn. turned state.new turn
        ≡ back_by state.old aim held.items records.items (last_in records.items)) }
{
    match last_in(&records) {
        Some(last) => {
            if last.number == first_number(&held) {
                let shown = shown_last(alloc, first_in(&held), last)?;
                take_shown(state, alloc, aim, held, records, shown)
            } else {
                go_back(state, alloc, aim, records)
            }
        }
        None => end_back(state, alloc, aim, held),
    }
}

/// A reply to that: half of all numbers lie before one.
pub(crate) fn take_back(
    state: &mut LogState,
    alloc: Global,
    aim: Aim,
    held: Vec<Numbered>,
    records: Vec<Numbered>,
) -> Result<Turn, AllocError>
    ensures { IfOk result (λ turn. turned state.new turn
        ≡ back state.old aim held.items records.items) }
{
    if state.back < 2147483648 {
        let first = number_or(state.reference, first_in(&records));
        state.back = state.back + distance(first, state.reference) + 1;
        take_back_by(state, alloc, aim, held, records)
    } else {
        Ok(state.ends(alloc, PollEnd::Contradicts))
    }
}

// What the first that is held back is shown as.
fn shown_last(alloc: Global, first: Option<Numbered>, last: Numbered) -> Result<Shown, AllocError>
    ensures { IfOk result (λ shown. shown ≡ shown_last first last) }
{
    match first {
        Some(first) => {
            let first = Kept::of(alloc, first)?;
            let last = Kept::of(alloc, last)?;
            Ok(shown_as(&first, &last))
        }
        None => Ok(Shown::Unshown),
    }
}
