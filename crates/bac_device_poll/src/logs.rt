//! The logs of a device are polled, one after the other.

ghost use Rattle.std.specs.Prelude.{◌≡◌, ◌++◌, ◌∷◌, [], IfOk, OnOk, MatchOption, Some, map};
ghost use Rattle.bac_poll.specs.Turns.{ends, turned as log_turned};
ghost use Rattle.bac_device_poll.specs.Logs.{after_end, after_log, begins, halved};
ghost use Rattle.bac_device_poll.specs.Logs.{has_ended, is_done, is_records, is_too_many};
ghost use Rattle.bac_device_poll.specs.Logs.{left_behind, log_after, log_at, lost, read_as};
ghost use Rattle.bac_device_poll.specs.Logs.{stage_behind, step_behind, wanted_at, with_log};
ghost use Rattle.bac_device_poll.specs.Logs.{with_records};
ghost use Rattle.bac_device_poll.specs.State.{LogAs};
ghost use Rattle.bac_device_poll.specs.Turns.{leaves, not_asked, turned};

use crate::poll::DevicePoll;
use crate::stage::Stage;
use crate::task::{LogTask, Polled};
use crate::turn::{DeviceEnd, Step, Turn, none};
use bac_answers::{
    Entry, device_of, is_busy, is_too_long, moment_in, restart_in, told_again, told_number,
};
use bac_link::Verdict;
use bac_poll::{LogPoll, PollEnd, Stage as LogStage, Turn as LogTurn};
use bac_walk::{Numbered, WalkFault};
use bac_wire::Datagram;
use std::alloc::{AllocError, Global};
use std::mem::replace;

/// What an answer to the question of a log is read as.
#[derive(Clone, Copy, Debug, PartialEq, Eq)]
pub enum Wanted {
    Records,
    Count,
    Revision,
    Restart,
}

// What an answer is read as, by what it is for.
fn wanted_at(stage: LogStage) -> Wanted
    ensures { result ≡ wanted_at stage }
{
    match stage {
        LogStage::Joins => Wanted::Records,
        LogStage::Prior => Wanted::Records,
        LogStage::Ahead => Wanted::Records,
        LogStage::Again => Wanted::Records,
        LogStage::Each => Wanted::Records,
        LogStage::ByNumber => Wanted::Records,
        LogStage::Oldest(_) => Wanted::Records,
        LogStage::Counts(_) => Wanted::Count,
        LogStage::UpTo(_) => Wanted::Records,
        LogStage::Back(_) => Wanted::Records,
        LogStage::Revision => Wanted::Revision,
        LogStage::Restart => Wanted::Restart,
    }
}

/// A turn with which the poll of a log ends.
pub(crate) fn ended(alloc: Global, poll: &LogPoll, why: PollEnd) -> LogTurn
    ensures { log_turned poll.now result ≡ ends poll.now why }
{
    LogTurn::ends(alloc, why)
}

// Records came, or were refused.
fn take_records(
    alloc: Global,
    poll: &mut LogPoll,
    verdict: Verdict,
    datagram: &Datagram,
) -> Result<LogTurn, AllocError>
    ensures { IfOk result (λ turn. log_turned poll.new turn
        ≡ with_records poll.old verdict datagram.now) }
{
    match verdict {
        Verdict::Ack => poll.take(alloc, datagram),
        Verdict::Refused(refusal) => Ok(ended(
            alloc,
            poll,
            PollEnd::Fault(WalkFault::Refused(refusal)),
        )),
        Verdict::BadReply => Ok(ended(alloc, poll, PollEnd::Fault(WalkFault::BadReply))),
    }
}

// An answer that is read as this.
fn take_as(
    alloc: Global,
    poll: &mut LogPoll,
    wanted: Wanted,
    verdict: Verdict,
    datagram: &Datagram,
) -> Result<LogTurn, AllocError>
    ensures { IfOk result (λ turn. log_turned poll.new turn
        ≡ read_as poll.old wanted verdict datagram.now) }
{
    match wanted {
        Wanted::Records => take_records(alloc, poll, verdict, datagram),
        Wanted::Count => poll.weigh(alloc, told_number(verdict, datagram)),
        Wanted::Revision => poll.hear_revision(alloc, told_number(verdict, datagram)),
        Wanted::Restart => {
            let restart = restart_in(alloc, verdict, datagram)?;
            let moment = moment_in(verdict, datagram);
            poll.hear_restart(alloc, restart, moment)
        }
    }
}

// An answer to the question of a log.
fn take_log(
    alloc: Global,
    poll: &mut LogPoll,
    verdict: Verdict,
    datagram: &Datagram,
) -> Result<LogTurn, AllocError>
    ensures { IfOk result (λ turn. log_turned poll.new turn
        ≡ log_after poll.old verdict datagram.now) }
{
    if is_busy(verdict) {
        return take_records(alloc, poll, verdict, datagram);
    }
    let wanted = wanted_at(poll.stage());
    take_as(alloc, poll, wanted, verdict, datagram)
}

// Whether it is records.
fn is_records(wanted: Wanted) -> bool
    ensures { result ≡ is_records wanted }
{
    match wanted {
        Wanted::Records => true,
        Wanted::Count => false,
        Wanted::Revision => false,
        Wanted::Restart => false,
    }
}

// Whether too many records were asked for, where fewer can be.
fn is_too_many(poll: &LogPoll, verdict: Verdict) -> bool
    ensures { result ≡ is_too_many poll.now verdict }
{
    is_too_long(verdict) && is_records(wanted_at(poll.stage())) && 1 < poll.count().number()
}

// How many more replies with records a log may have behind these.
fn left_behind(left: Option<u32>, records: &[Numbered]) -> Option<u32>
    ensures { result ≡ left_behind left records.now }
{
    match (left, records) {
        (left, []) => left,
        (None, [_, ..]) => None,
        (Some(left), [_, ..]) => Some(left.saturating_sub(1)),
    }
}

// Whether the poll of a log has ended: by itself, or since it may have no more of them.
fn has_ended(end: Option<PollEnd>, left: Option<u32>) -> bool
    ensures { result ≡ has_ended end left }
{
    match (end, left) {
        (Some(_), _) => true,
        (None, Some(left)) => left == 0,
        (None, None) => false,
    }
}

// What is asked behind a turn of a log.
fn stage_behind(ended: bool) -> Stage
    ensures { result ≡ stage_behind ended }
{
    if ended { Stage::Between } else { Stage::Log }
}

// How it goes on.
fn step_behind(ended: bool) -> Step
    ensures { result ≡ step_behind ended }
{
    if ended { Step::GoOn } else { Step::Ask }
}

// Tells of each of these logs that it isn't asked.
fn push_not_asked(entries: &mut Vec<Entry>, logs: &[LogTask]) -> Result<(), AllocError>
    ensures { OnOk result (entries.new.items ≡ entries.old.items ++ map not_asked logs.now) }
{
    for task in logs {
        entries.push(Entry::NotAsked(task.log()))?;
    }
    Ok(())
}

// The first of these, which is taken out.
fn first_of(logs: &mut Vec<LogTask>) -> Option<LogTask>
    ensures { MatchOption result ((logs.old.items ≡ []) × (logs.new.items ≡ []))
        (λ task. logs.old.items ≡ task ∷ logs.new.items) }
{
    if logs.is_empty() {
        return None;
    }
    Some(logs.remove(0))
}

impl DevicePoll {
    /// Nothing more is asked of it, for this reason, and of each log that waits it is told so.
    pub(crate) fn leave(&mut self, entries: Vec<Entry>, why: DeviceEnd) -> Result<Turn, AllocError>
        ensures { IfOk result (λ turn. turned self.new turn
            ≡ leaves self.old entries.items why) }
    {
        let mut entries = entries;
        push_not_asked(&mut entries, self.logs.as_slice())?;
        self.stage = Stage::Ended;
        self.logs.clear();
        Ok(Turn {
            entries,
            log: None,
            step: Step::End(why),
        })
    }

    // It has no more logs.
    fn finish(&mut self, entries: Vec<Entry>) -> Turn
        ensures { turned self.new result ≡ is_done self.old entries.items }
    {
        self.stage = Stage::Ended;
        self.polled = None;
        Turn {
            entries,
            log: None,
            step: Step::End(DeviceEnd::Done),
        }
    }

    /// The next log is polled, if there is one.
    pub(crate) fn begin_next(
        &mut self,
        alloc: Global,
        entries: Vec<Entry>,
    ) -> Result<Turn, AllocError>
        ensures { IfOk result (λ turn. turned self.new turn ≡ begins self.old entries.items) }
    {
        let told = told_again(alloc, &self.told)?;
        match first_of(&mut self.logs) {
            Some(task) => {
                let device = device_of(&self.who);
                self.polled = Some(task.poll(alloc, device, self.many, told, self.steps));
                self.stage = Stage::Log;
                Ok(Turn::asks(entries))
            }
            None => Ok(self.finish(entries)),
        }
    }

    // The log that is polled has this turn.
    fn end_turn(&mut self, alloc: Global, polled: Polled, turn: LogTurn) -> Turn
        ensures { turned self.new result
            ≡ with_log self.old polled (log_turned polled.poll turn) }
    {
        let Polled { log, poll, left } = polled;
        let left = left_behind(left, turn.entries.as_slice());
        let ended = has_ended(turn.end, left);
        self.stage = stage_behind(ended);
        self.polled = Some(Polled { log, poll, left });
        Turn {
            entries: none(alloc),
            log: Some(turn),
            step: step_behind(ended),
        }
    }

    /// An answer to the question of the log that is polled.
    pub(crate) fn hear_log(
        &mut self,
        alloc: Global,
        verdict: Verdict,
        datagram: &Datagram,
    ) -> Result<Turn, AllocError>
        ensures { IfOk result (λ turn. turned self.new turn
            ≡ after_log self.old verdict datagram.now) }
    {
        match replace(&mut self.polled, None) {
            Some(polled) => {
                if is_too_many(&polled.poll, verdict) {
                    return Ok(self.halve(alloc, polled));
                }
                self.take_answer(alloc, polled, verdict, datagram)
            }
            None => Ok(Turn::asks(none(alloc))),
        }
    }

    // The log that is polled is asked for half as many records, and so are those behind it.
    fn halve(&mut self, alloc: Global, polled: Polled) -> Turn
        ensures { turned self.new result ≡ halved self.old polled }
    {
        let Polled { log, poll, left } = polled;
        let mut poll = poll;
        poll.too_many();
        self.many = poll.count();
        self.polled = Some(Polled { log, poll, left });
        Turn::asks(none(alloc))
    }

    // The log that is polled takes an answer.
    fn take_answer(
        &mut self,
        alloc: Global,
        polled: Polled,
        verdict: Verdict,
        datagram: &Datagram,
    ) -> Result<Turn, AllocError>
        ensures { IfOk result (λ turn. turned self.new turn
            ≡ with_log self.old polled (log_after polled.poll verdict datagram.now)) }
    {
        let Polled { log, poll, left } = polled;
        let mut poll = poll;
        let turn = take_log(alloc, &mut poll, verdict, datagram)?;
        Ok(self.end_turn(alloc, Polled { log, poll, left }, turn))
    }

    /// The log that is polled is lost.
    pub(crate) fn lose_log(&mut self, alloc: Global, polled: Polled) -> Result<Turn, AllocError>
        ensures { IfOk result (λ turn. turned self.new turn ≡ lost self.old polled) }
    {
        let lost = ended(alloc, &polled.poll, PollEnd::Fault(WalkFault::Lost));
        if self.doubt {
            self.polled = Some(polled);
            let turn = self.leave(none(alloc), DeviceEnd::Silent)?;
            return Ok(Turn {
                entries: turn.entries,
                log: Some(lost),
                step: turn.step,
            });
        }
        self.doubt = true;
        Ok(self.end_turn(alloc, polled, lost))
    }

    /// The poll of a log has ended: the next one is begun, if there is one. After want of memory
    /// the poll is of no use.
    pub fn go_on(&mut self, alloc: Global) -> Result<Turn, AllocError>
        ensures { IfOk result (λ turn. turned self.new turn ≡ after_end self.old) }
    {
        self.begin_next(alloc, none(alloc))
    }
}
