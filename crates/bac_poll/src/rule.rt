//! What an answer makes of a poll, by what it is for.

ghost use Rattle.std.specs.Prelude.{◌≡◌, IfOk};
ghost use Rattle.bac_poll.specs.Poll.{after, after_count, after_reply, after_restart};
ghost use Rattle.bac_poll.specs.Poll.{after_revision, at_stage, came, oldest, oldest_none};
ghost use Rattle.bac_poll.specs.Poll.{renews_by, up_to, up_to_none};
ghost use Rattle.bac_poll.specs.State.{reply_as};
ghost use Rattle.bac_poll.specs.Turns.{turned};

use crate::back::take_back;
use crate::joins::{join, take_again, take_ahead, take_each, take_prior};
use crate::oldest::{is_cut, see, take_by_number, take_count};
use bac_known::{DateTime, Reply, is_none};
use bac_poll_steps::{Aim, LogState, PollEnd, Stage, Turn};
use bac_walk::{Numbered, WalkFault};
use bac_wire::Datagram;
use std::alloc::{AllocError, Global};
use std::mem::replace;

/// Takes a datagram with the ACK that answers a question for records: what it brings. After
/// want of memory the poll is of no use.
pub(crate) fn take(
    state: &mut LogState,
    alloc: Global,
    datagram: &Datagram,
) -> Result<Turn, AllocError>
    ensures { IfOk result (λ turn. turned state.new turn ≡ after state.old datagram.now) }
{
    match state.read(alloc, datagram.octets())? {
        Some(reply) => take_reply(state, alloc, reply),
        None => Ok(state.ends(alloc, PollEnd::Fault(WalkFault::BadReply))),
    }
}

/// Takes the count that was asked for, if the device tells one.
pub(crate) fn weigh(
    state: &mut LogState,
    alloc: Global,
    count: Option<u32>,
) -> Result<Turn, AllocError>
    ensures { IfOk result (λ turn. turned state.new turn ≡ after_count state.old count) }
{
    match state.stage {
        Stage::Counts(Aim::Finds) => {
            state.more = false;
            take_count(state, alloc, count)
        }
        Stage::Counts(Aim::Renews) => Ok(renew_by(state, alloc, count)),
        Stage::Counts(Aim::Starts) => state.start_from(alloc, count),
        Stage::Joins => Ok(state.ends(alloc, PollEnd::Fault(WalkFault::BadReply))),
        Stage::Prior => Ok(state.ends(alloc, PollEnd::Fault(WalkFault::BadReply))),
        Stage::Ahead => Ok(state.ends(alloc, PollEnd::Fault(WalkFault::BadReply))),
        Stage::Again => Ok(state.ends(alloc, PollEnd::Fault(WalkFault::BadReply))),
        Stage::Each => Ok(state.ends(alloc, PollEnd::Fault(WalkFault::BadReply))),
        Stage::ByNumber => Ok(state.ends(alloc, PollEnd::Fault(WalkFault::BadReply))),
        Stage::Oldest(_) => Ok(state.ends(alloc, PollEnd::Fault(WalkFault::BadReply))),
        Stage::UpTo(_) => Ok(state.ends(alloc, PollEnd::Fault(WalkFault::BadReply))),
        Stage::Back(_) => Ok(state.ends(alloc, PollEnd::Fault(WalkFault::BadReply))),
        Stage::Revision => Ok(state.ends(alloc, PollEnd::Fault(WalkFault::BadReply))),
        Stage::Restart => Ok(state.ends(alloc, PollEnd::Fault(WalkFault::BadReply))),
    }
}

/// Takes the Database_Revision that was asked for, if the device tells one.
pub(crate) fn hear_revision(
    state: &mut LogState,
    alloc: Global,
    revision: Option<u32>,
) -> Result<Turn, AllocError>
    ensures { IfOk result (λ turn. turned state.new turn ≡ after_revision state.old revision) }
{
    state.again.revision = revision;
    let held = replace(&mut state.held, Vec::new(alloc));
    state.ask_restart(alloc, held)
}

/// Takes the Time_Of_Device_Restart that was asked for, as it is kept (no octets: the device
/// doesn't tell it) and as a date and time (unknown, if it is none).
pub(crate) fn hear_restart(
    state: &mut LogState,
    alloc: Global,
    restart: Vec<u8>,
    moment: DateTime,
) -> Result<Turn, AllocError>
    ensures { IfOk result (λ turn. turned state.new turn
        ≡ after_restart state.old restart.items moment) }
{
    retell_restart(state, restart, moment);
    let held = replace(&mut state.held, Vec::new(alloc));
    state.go_by_word(alloc, held)
}

// The restart is told again.
fn retell_restart(state: &mut LogState, restart: Vec<u8>, moment: DateTime)
    ensures { state.new ≡ record state.old
        { again = record state.old.again { restart = restart.items; moment = moment } } }
{
    state.again.restart = restart;
    state.again.moment = moment;
}

// A reply by the question.
fn take_reply(state: &mut LogState, alloc: Global, reply: Reply) -> Result<Turn, AllocError>
    ensures { IfOk result (λ turn. turned state.new turn
        ≡ after_reply state.old (reply_as reply)) }
{
    if !is_none(&reply.records) {
        state.more = reply.more;
    }
    let held = replace(&mut state.held, Vec::new(alloc));
    go_by_stage(state, alloc, held, reply)
}

// By what it is for.
fn go_by_stage(
    state: &mut LogState,
    alloc: Global,
    held: Vec<Numbered>,
    reply: Reply,
) -> Result<Turn, AllocError>
    ensures { IfOk result (λ turn. turned state.new turn
        ≡ at_stage state.old state.old.stage held.items (reply_as reply)) }
{
    match state.stage {
        Stage::Joins => join(state, alloc, reply),
        Stage::Prior => take_prior(state, alloc, reply.records),
        Stage::Ahead => Ok(take_ahead(state, alloc, reply.records)),
        Stage::Again => take_again(state, alloc, held, reply.records),
        Stage::Each => take_each(state, alloc, held, reply.records),
        Stage::ByNumber => take_by_number(state, alloc, held, reply.records),
        Stage::Oldest(aim) => take_oldest(state, alloc, aim, reply),
        Stage::UpTo(aim) => take_up_to(state, alloc, aim, reply.records),
        Stage::Back(aim) => take_back(state, alloc, aim, held, reply.records),
        Stage::Counts(_) => Ok(state.ends(alloc, PollEnd::Fault(WalkFault::BadReply))),
        Stage::Revision => Ok(state.ends(alloc, PollEnd::Fault(WalkFault::BadReply))),
        Stage::Restart => Ok(state.ends(alloc, PollEnd::Fault(WalkFault::BadReply))),
    }
}

// The oldest were asked for.
fn take_oldest(
    state: &mut LogState,
    alloc: Global,
    aim: Aim,
    reply: Reply,
) -> Result<Turn, AllocError>
    ensures { IfOk result (λ turn. turned state.new turn
        ≡ oldest state.old aim (reply_as reply)) }
{
    if is_none(&reply.records) {
        return take_no_oldest(state, alloc, aim);
    }
    let cut = is_cut(state, &reply);
    take_came(state, alloc, aim, cut, reply.records)
}

// None of them is shown.
fn take_no_oldest(state: &mut LogState, alloc: Global, aim: Aim) -> Result<Turn, AllocError>
    ensures { IfOk result (λ turn. turned state.new turn ≡ oldest_none state.old aim) }
{
    match aim {
        Aim::Finds => Ok(state.ask_at(alloc, Stage::Counts(Aim::Finds), state.reference)),
        Aim::Renews => Ok(state.ask_at(alloc, Stage::Counts(Aim::Renews), state.reference)),
        Aim::Starts => {
            if state.total == 0 {
                return state.start_none(alloc);
            }
            Ok(state.ask_at(alloc, Stage::UpTo(Aim::Starts), state.total))
        }
    }
}

// Those up to the count were asked for.
fn take_up_to(
    state: &mut LogState,
    alloc: Global,
    aim: Aim,
    records: Vec<Numbered>,
) -> Result<Turn, AllocError>
    ensures { IfOk result (λ turn. turned state.new turn ≡ up_to state.old aim records.items) }
{
    if is_none(&records) {
        return take_none_up_to(state, alloc, aim);
    }
    take_came(state, alloc, aim, false, records)
}

// None of them is shown either.
fn take_none_up_to(state: &mut LogState, alloc: Global, aim: Aim) -> Result<Turn, AllocError>
    ensures { IfOk result (λ turn. turned state.new turn ≡ up_to_none state.old aim) }
{
    match aim {
        Aim::Finds => state.ask_word(alloc, Vec::new(alloc)),
        Aim::Renews => Ok(state.renew_none(alloc)),
        Aim::Starts => state.start(alloc, Vec::new(alloc)),
    }
}

// They came.
fn take_came(
    state: &mut LogState,
    alloc: Global,
    aim: Aim,
    cut: bool,
    records: Vec<Numbered>,
) -> Result<Turn, AllocError>
    ensures { IfOk result (λ turn. turned state.new turn ≡ came state.old aim cut records.items) }
{
    match aim {
        Aim::Finds => see(state, alloc, true, cut, records),
        Aim::Renews => state.renew(alloc, records),
        Aim::Starts => state.start_by(alloc, records),
    }
}

// The count of a new epoch that shows no record.
fn renew_by(state: &mut LogState, alloc: Global, count: Option<u32>) -> Turn
    ensures { turned state.new result ≡ renews_by state.old count }
{
    match count {
        Some(total) => state.renew_of(alloc, total),
        None => state.ends(alloc, state.end()),
    }
}
