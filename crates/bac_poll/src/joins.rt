//! Each question shows the record before it.

ghost use Rattle.std.specs.Prelude.{◌≡◌, ◌<◌, IfOk, length, Some};
ghost use Rattle.bac_poll.specs.State.{KeptAs, PollState, kept_as, kept_of, maybe_kept, reply_as};
ghost use Rattle.bac_poll.specs.Known.{record_at, records_behind};
ghost use Rattle.bac_poll.specs.Turns.{first_in, last_in};
ghost use Rattle.bac_poll.specs.Turns.{turned};
ghost use Rattle.bac_poll.specs.Joins.{again, again_by, again_equal, ahead, ahead_none, asks_again};
ghost use Rattle.bac_poll.specs.Joins.{asks_each, asks_newest, at_hour, brings_ahead, each};
ghost use Rattle.bac_poll.specs.Joins.{each_all};
ghost use Rattle.bac_poll.specs.Joins.{each_by, each_means, each_next, found, goes_nowhere};
ghost use Rattle.bac_poll.specs.Joins.{goes_on, hour};
ghost use Rattle.bac_poll.specs.Joins.{joined, joins, joins_by, joins_from, lost, lost_ahead};
ghost use Rattle.bac_poll.specs.Joins.{moved_ahead, prior};

use bac_known::{
    Kept, Means, Reply, Shown, first_in, first_number, is_known, is_none, is_one, is_retold,
    last_in, number_behind, number_in, record_at, records_behind, shown_in,
};
use bac_poll_steps::{Aim, Line, LogState, PollEnd, Stage, Turn, gap_up_to};
use bac_walk::Numbered;
use std::alloc::{AllocError, Global};

/// A known record alone is asked for, after these were shown.
pub(crate) fn ask_each(
    state: &mut LogState,
    alloc: Global,
    held: Vec<Numbered>,
    number: Option<u32>,
) -> Result<Turn, AllocError>
    ensures { IfOk result (λ turn. turned state.new turn
        ≡ asks_each state.old held.items number) }
{
    match number {
        Some(number) => {
            state.held = held;
            Ok(state.ask_at(alloc, Stage::Each, number))
        }
        None => state.tell_another(alloc),
    }
}

// Nothing follows the newest known one.
fn go_nowhere(state: &mut LogState, alloc: Global, done: bool, alone: bool) -> Turn
    ensures { turned state.new result ≡ goes_nowhere state.old done alone }
{
    if done {
        return state.ends(alloc, PollEnd::CaughtUp);
    }
    if alone {
        return state.ask_at(alloc, Stage::Ahead, state.next);
    }
    state.asks(alloc)
}

// The log is found at its place by the newest known record.
fn go_on(state: &mut LogState, alloc: Global, reply: Reply, number: u32) -> Result<Turn, AllocError>
    ensures { IfOk result (λ turn. turned state.new turn ≡ goes_on state.old (reply_as reply)
        (records_behind number reply.records.items)) }
{
    let Reply {
        records,
        last,
        more,
    } = reply;
    let alone = is_one(&records);
    let news = records_behind(number, records);
    if is_none(&news) {
        return Ok(go_nowhere(state, alloc, last && !more, alone));
    }
    state.bring(alloc, news)
}

/// The log is found at its place by this record, the newest known one.
pub(crate) fn find(state: &mut LogState, alloc: Global, held: Numbered) -> Result<(), AllocError>
    ensures { IfOk result (λ _. state.new ≡ found state.old held) }
{
    state.confirm(alloc)?;
    let kept = Kept::of(alloc, held)?;
    state.stand_on(kept);
    Ok(())
}

/// The newest known one is asked for by its number.
pub(crate) fn ask_newest(state: &mut LogState, alloc: Global, number: u32) -> Turn
    ensures { turned state.new result ≡ asks_newest state.old number }
{
    state.ask_from(number);
    state.asks(alloc)
}

// Known records are shown as they are known, with the newest or without it.
fn join_at(
    state: &mut LogState,
    alloc: Global,
    number: u32,
    reply: Reply,
) -> Result<Turn, AllocError>
    ensures { IfOk result (λ turn. (kept : KeptAs) → kept.number ≡ number
        → turned state.new turn ≡ joined state.old kept (reply_as reply)
        (record_at number reply.records.items)) }
{
    match record_at(number, reply.records.as_slice()) {
        Some(held) => {
            find(state, alloc, held)?;
            go_on(state, alloc, reply, number)
        }
        None => Ok(ask_newest(state, alloc, number)),
    }
}

// The same where the newest is known.
fn join_from(state: &mut LogState, alloc: Global, reply: Reply) -> Result<Turn, AllocError>
    ensures { IfOk result (λ turn. turned state.new turn
        ≡ joins_from state.old (reply_as reply) state.old.newest) }
{
    match &state.newest {
        Some(kept) => {
            let number = kept.number;
            join_at(state, alloc, number, reply)
        }
        None => Ok(state.ask_oldest(alloc, Aim::Finds)),
    }
}

/// What is told where all known ones are shown at another hour.
pub(crate) fn hour(state: &LogState, by: u32) -> Line
    ensures { result ≡ hour state.now by }
{
    if state.is_steady() && !is_retold(&state.word, &state.told) {
        Line::AtHourOrBegan(by)
    } else {
        Line::AtHour(by)
    }
}

/// It is told, but where the newest is shown as it is known.
pub(crate) fn at_hour(state: &LogState, by: u32, line: Line, turn: Turn) -> Turn
    ensures { turned state.now result ≡ at_hour by line (turned state.now turn) }
{
    if by == 100 {
        return turn;
    }
    let mut turn = turn;
    turn.line = Some(line);
    turn
}

// By what they mean.
fn join_by(
    state: &mut LogState,
    alloc: Global,
    reply: Reply,
    means: Means,
) -> Result<Turn, AllocError>
    ensures { IfOk result (λ turn. turned state.new turn
        ≡ joins_by state.old (reply_as reply) means) }
{
    match means {
        Means::Unshown => Ok(state.ask_oldest(alloc, Aim::Finds)),
        Means::Same => join_from(state, alloc, reply),
        Means::Shifted(by) => {
            let line = hour(state, by);
            let turn = join_from(state, alloc, reply)?;
            Ok(at_hour(state, by, line, turn))
        }
        Means::Partly => {
            let number = number_in(&state.newest);
            ask_each(state, alloc, Vec::new(alloc), number)
        }
        Means::Another => state.tell_another(alloc),
    }
}

/// A reply to the question for the known records.
pub(crate) fn join(state: &mut LogState, alloc: Global, reply: Reply) -> Result<Turn, AllocError>
    ensures { IfOk result (λ turn. turned state.new turn ≡ joins state.old (reply_as reply)) }
{
    let means = state.means_in(alloc, reply.records.as_slice())?;
    join_by(state, alloc, reply, means)
}

/// A reply to the question for the number before the first.
pub(crate) fn take_prior(
    state: &mut LogState,
    alloc: Global,
    records: Vec<Numbered>,
) -> Result<Turn, AllocError>
    ensures { IfOk result (λ turn. turned state.new turn ≡ prior state.old records.items) }
{
    if first_number(&records) == state.reference {
        state.tell_another(alloc)
    } else {
        Ok(state.ask_oldest(alloc, Aim::Finds))
    }
}

// The newest known one is asked for once more.
fn ask_again(state: &mut LogState, alloc: Global, held: Vec<Numbered>, number: Option<u32>) -> Turn
    ensures { turned state.new result ≡ asks_again state.old held.items number }
{
    match number {
        Some(number) => {
            state.held = held;
            state.ask_at(alloc, Stage::Again, number)
        }
        None => state.ask_oldest(alloc, Aim::Finds),
    }
}

// Nothing follows it.
fn take_none_ahead(state: &mut LogState, alloc: Global) -> Turn
    ensures { turned state.new result ≡ ahead_none state.old }
{
    if state.more {
        let number = number_in(&state.newest);
        ask_again(state, alloc, Vec::new(alloc), number)
    } else {
        state.ends(alloc, PollEnd::CaughtUp)
    }
}

/// A reply to the question for what follows it.
pub(crate) fn take_ahead(state: &mut LogState, alloc: Global, records: Vec<Numbered>) -> Turn
    ensures { turned state.new result ≡ ahead state.old records.items }
{
    if is_none(&records) {
        return take_none_ahead(state, alloc);
    }
    if first_number(&records) == state.next {
        let number = number_in(&state.newest);
        ask_again(state, alloc, records, number)
    } else {
        state.ask_oldest(alloc, Aim::Finds)
    }
}

// It isn't held any more, or another one is.
fn lose(state: &mut LogState, alloc: Global, seen: Shown) -> Result<Turn, AllocError>
    ensures { IfOk result (λ turn. turned state.new turn ≡ lost state.old seen) }
{
    match seen {
        Shown::Unshown => Ok(state.ask_oldest(alloc, Aim::Finds)),
        Shown::Equal => Ok(state.ask_oldest(alloc, Aim::Finds)),
        Shown::Moved(_) => state.tell_another(alloc),
        Shown::Another => state.tell_another(alloc),
    }
}

// What came ahead is of nobody knows which life.
fn lose_ahead(
    state: &mut LogState,
    alloc: Global,
    seen: Shown,
    last: Option<Numbered>,
) -> Result<Turn, AllocError>
    ensures { IfOk result (λ turn. turned state.new turn ≡ lost_ahead state.old seen last) }
{
    match last {
        Some(last) => {
            let next = number_behind(last.number);
            let missing = gap_up_to(state.next, next);
            state.stand_at(next);
            let mut turn = lose(state, alloc, seen)?;
            turn.missing = missing;
            turn.doubtful = true;
            Ok(turn)
        }
        None => lose(state, alloc, seen),
    }
}

// It is shown at another hour.
fn move_ahead(
    state: &mut LogState,
    alloc: Global,
    held: Vec<Numbered>,
    seen: Shown,
) -> Result<Turn, AllocError>
    ensures { IfOk result (λ turn. turned state.new turn
        ≡ moved_ahead state.old held.items seen) }
{
    if is_known(&state.earliest) {
        let number = number_in(&state.newest);
        ask_each(state, alloc, Vec::new(alloc), number)
    } else {
        lose_ahead(state, alloc, seen, last_in(&held))
    }
}

// What came ahead is kept.
fn bring_ahead(state: &mut LogState, alloc: Global, held: Vec<Numbered>) -> Result<Turn, AllocError>
    ensures { IfOk result (λ turn. turned state.new turn
        ≡ brings_ahead state.old held.items (last_in held.items)) }
{
    match last_in(&held) {
        Some(last) => {
            state.stand_behind(alloc, &held, last)?;
            let mut turn = state.ask_at(alloc, Stage::Ahead, number_behind(last.number));
            turn.entries = held;
            Ok(turn)
        }
        None => Ok(state.ends(alloc, state.end())),
    }
}

// The newest known one is as it is known.
fn take_equal(
    state: &mut LogState,
    alloc: Global,
    held: Vec<Numbered>,
    number: u32,
    records: Vec<Numbered>,
) -> Result<Turn, AllocError>
    ensures { IfOk result (λ turn. (kept : KeptAs) → kept.number ≡ number
        → turned state.new turn ≡ again_equal state.old held.items kept records.items) }
{
    if is_none(&held) {
        return state.bring(alloc, records_behind(number, records));
    }
    if is_one(&records) {
        bring_ahead(state, alloc, held)
    } else {
        state.bring(alloc, held)
    }
}

// By what is shown of it.
fn take_again_by(
    state: &mut LogState,
    alloc: Global,
    held: Vec<Numbered>,
    number: u32,
    records: Vec<Numbered>,
    shown: Shown,
) -> Result<Turn, AllocError>
    ensures { IfOk result (λ turn. (kept : KeptAs) → kept.number ≡ number
        → turned state.new turn ≡ again_by state.old held.items kept records.items shown) }
{
    match shown {
        Shown::Equal => take_equal(state, alloc, held, number, records),
        Shown::Unshown => lose_ahead(state, alloc, Shown::Unshown, last_in(&held)),
        Shown::Moved(by) => move_ahead(state, alloc, held, Shown::Moved(by)),
        Shown::Another => lose_ahead(state, alloc, Shown::Another, last_in(&held)),
    }
}

/// A reply to the question for it once more.
pub(crate) fn take_again(
    state: &mut LogState,
    alloc: Global,
    held: Vec<Numbered>,
    records: Vec<Numbered>,
) -> Result<Turn, AllocError>
    ensures { IfOk result (λ turn. turned state.new turn
        ≡ again state.old held.items records.items) }
{
    let shown = shown_in(alloc, &state.newest, records.as_slice())?;
    match &state.newest {
        Some(kept) => {
            let number = kept.number;
            take_again_by(state, alloc, held, number, records, shown)
        }
        None => Ok(state.ask_oldest(alloc, Aim::Finds)),
    }
}

// By what all known ones mean, the newest shown as this one.
fn end_each(
    state: &mut LogState,
    alloc: Global,
    held: Numbered,
    means: Means,
) -> Result<Turn, AllocError>
    ensures { IfOk result (λ turn. turned state.new turn ≡ each_means state.old held means) }
{
    match means {
        Means::Same => {
            let kept = Kept::of(alloc, held)?;
            state.stand_alone(kept);
            Ok(state.asks(alloc))
        }
        Means::Shifted(by) => {
            let line = hour(state, by);
            let kept = Kept::of(alloc, held)?;
            state.stand_alone(kept);
            let turn = state.asks(alloc);
            Ok(at_hour(state, by, line, turn))
        }
        Means::Unshown => state.tell_another(alloc),
        Means::Partly => state.tell_another(alloc),
        Means::Another => state.tell_another(alloc),
    }
}

// All of them were shown.
fn compare_each(
    state: &mut LogState,
    alloc: Global,
    held: Vec<Numbered>,
) -> Result<Turn, AllocError>
    ensures { IfOk result (λ turn. turned state.new turn
        ≡ each_all state.old held.items (first_in held.items)) }
{
    match first_in(&held) {
        Some(first) => {
            let means = state.means_in(alloc, held.as_slice())?;
            end_each(state, alloc, first, means)
        }
        None => state.tell_another(alloc),
    }
}

// The next of them is asked for, or they are compared.
fn go_on_each(state: &mut LogState, alloc: Global, held: Vec<Numbered>) -> Result<Turn, AllocError>
    ensures { IfOk result (λ turn. turned state.new turn ≡ each_next state.old held.items) }
{
    if held.len() == 1 {
        let number = number_in(&state.earlier);
        return ask_each(state, alloc, held, number);
    }
    if held.len() == 2 {
        let number = number_in(&state.earliest);
        return ask_each(state, alloc, held, number);
    }
    compare_each(state, alloc, held)
}

/// A reply to the question for one of them.
pub(crate) fn take_each(
    state: &mut LogState,
    alloc: Global,
    held: Vec<Numbered>,
    records: Vec<Numbered>,
) -> Result<Turn, AllocError>
    ensures { IfOk result (λ turn. turned state.new turn
        ≡ each state.old held.items records.items) }
{
    match first_in(&records) {
        Some(shown) => {
            if shown.number == state.reference && held.len() < 3 {
                let mut held = held;
                held.push(shown)?;
                go_on_each(state, alloc, held)
            } else {
                state.tell_another(alloc)
            }
        }
        None => state.tell_another(alloc),
    }
}
