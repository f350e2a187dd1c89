//! A poll of one trend log.

ghost use Rattle.std.specs.Prelude.{◌≡◌, ◌↔◌, IfSome, IsSome, IfOk};
ghost use Rattle.bac_link.specs.Datagrams.{apdu_in};
ghost use Rattle.bac_link.specs.Exchanges.{verdict_of};
ghost use Rattle.bac_link.specs.Path.{towards};
ghost use Rattle.bac_link.specs.Requests.{IsSendable, IsTooLong, next_invoke, request_octets};
ghost use Rattle.bac_link.specs.Transactions.{begun_with};
ghost use Rattle.bac_poll.specs.Poll.{after, after_count, after_restart, after_revision};
ghost use Rattle.bac_poll.specs.Poll.{after_too_many, asked_by_poll, joining, starting};
ghost use Rattle.bac_poll.specs.State.{PollState, standing_as, told_as};
ghost use Rattle.bac_poll.specs.Turns.{turned};

use crate::rule::{hear_restart, hear_revision, take, weigh};
use bac_known::{DateTime, Told};
use bac_link::{Request, Transactions, Verdict};
use bac_poll_steps::{LogState, Stage, Standing, Turn};
use bac_walk::Count;
use bac_wire::{Datagram, ObjectId};
use std::alloc::{AllocError, Global};
use std::marker::Model;

/// A poll of one trend log, which contracts see as what is known of the log.
#[derive(Drop)]
pub struct LogPoll {
    state: LogState,
}

impl Model for LogPoll {
    ghost use Rattle.bac_poll.specs.State.{PollState};

    ghost Value = { PollState };

    ghost view = { λ p. p.state };
}

impl LogPoll {
    /// A poll of a log whose rows stand there, which asks for so many records at a time. Its device
    /// told this before. `None` if the object isn't a trend log.
    pub fn behind(
        alloc: Global,
        log: ObjectId,
        device: ObjectId,
        many: Count,
        at: Standing,
        told: Told,
    ) -> Option<LogPoll>
        ensures some { IfSome result (λ p. p
            ≡ joining log device many (standing_as at) (told_as told)) }
        ensures is_some { IsSome result ↔ log.kind ≡ 20 }
    {
        match LogState::behind(alloc, log, device, many, at, told) {
            Some(state) => Some(LogPoll { state }),
            None => None,
        }
    }

    /// A first run of a log. Of one before that ended behind its count, the beginning by that count
    /// and the word on record. `None` if the object isn't a trend log.
    pub fn starting(
        alloc: Global,
        log: ObjectId,
        device: ObjectId,
        many: Count,
        begins: Option<u32>,
        word: Told,
        told: Told,
    ) -> Option<LogPoll>
        ensures some { IfSome result (λ p. p
            ≡ starting log device many begins (told_as word) (told_as told)) }
        ensures is_some { IsSome result ↔ log.kind ≡ 20 }
    {
        match LogState::starting(alloc, log, device, many, begins, word, told) {
            Some(state) => Some(LogPoll { state }),
            None => None,
        }
    }

    /// What the next answer is for.
    pub fn stage(&self) -> Stage
        ensures { result ≡ self.now.stage }
    {
        self.state.stage()
    }

    /// The sequence number that comes next.
    pub fn next(&self) -> u32
        ensures { result ≡ self.now.next }
    {
        self.state.next()
    }

    /// The word of its device that is on record for this log from now on.
    pub fn word(&self) -> &Told
        ensures { told_as result.now ≡ self.now.word }
    {
        self.state.word()
    }

    /// The device can't send so many records at once (Abort 1, 4 or 11, clause 18.10): half as many
    /// are asked for from now on, one at least. The question is asked again, if it asked for more
    /// than one.
    pub fn too_many(&mut self)
        ensures { self.new ≡ after_too_many self.old }
    {
        self.state.too_many()
    }

    /// How many records a question asks for: of the next log of its device, too.
    pub fn count(&self) -> Count
        ensures { result ≡ self.now.walk.count }
    {
        self.state.count()
    }

    /// What is asked next. It always fits a request.
    pub fn question(&self) -> Request
        ensures asks { result ≡ asked_by_poll self.now }
        ensures fits { IsTooLong result → ⊥ }
        ensures sendable { IsSendable result }
    {
        self.state.question()
    }

    /// Its question as the next transaction: the datagram that is sent.
    pub fn ask(&self, transactions: &mut Transactions) -> Datagram
        ensures datagram { result ≡ request_octets (towards transactions.old.route)
            (next_invoke transactions.old.invoke) (asked_by_poll self.now) }
        ensures begun { transactions.new ≡ begun_with (asked_by_poll self.now) transactions.old }
    {
        self.state.ask(transactions)
    }

    /// What an answer is to its question.
    pub fn judge(&self, datagram: &[u8]) -> Verdict
        ensures { result ≡ verdict_of (asked_by_poll self.now) (apdu_in datagram.now) }
    {
        self.state.judge(datagram)
    }

    /// Takes a datagram with the ACK that answers a question for records: what it brings. After
    /// want of memory the poll is of no use.
    pub fn take(&mut self, alloc: Global, datagram: &Datagram) -> Result<Turn, AllocError>
        ensures { IfOk result (λ turn. turned self.new turn ≡ after self.old datagram.now) }
    {
        take(&mut self.state, alloc, datagram)
    }

    /// Takes the count that was asked for, if the device tells one.
    pub fn weigh(&mut self, alloc: Global, count: Option<u32>) -> Result<Turn, AllocError>
        ensures { IfOk result (λ turn. turned self.new turn ≡ after_count self.old count) }
    {
        weigh(&mut self.state, alloc, count)
    }

    /// Takes the Database_Revision that was asked for, if the device tells one.
    pub fn hear_revision(
        &mut self,
        alloc: Global,
        revision: Option<u32>,
    ) -> Result<Turn, AllocError>
        ensures { IfOk result (λ turn. turned self.new turn ≡ after_revision self.old revision) }
    {
        hear_revision(&mut self.state, alloc, revision)
    }

    /// Takes the Time_Of_Device_Restart that was asked for, as it is kept (no octets: the device
    /// doesn't tell it) and as a date and time (unknown, if it is none).
    pub fn hear_restart(
        &mut self,
        alloc: Global,
        restart: Vec<u8>,
        moment: DateTime,
    ) -> Result<Turn, AllocError>
        ensures { IfOk result (λ turn. turned self.new turn
            ≡ after_restart self.old restart.items moment) }
    {
        hear_restart(&mut self.state, alloc, restart, moment)
    }
}
