//! The poll of one device over transactions.

ghost use Rattle.std.specs.Prelude.{◌≡◌, IfOk, OnOk, false, is_some};
ghost use Rattle.bac_link.specs.Path.{towards};
ghost use Rattle.bac_link.specs.Requests.{next_invoke, request_octets};
ghost use Rattle.bac_link.specs.Transactions.{begun_with};
ghost use Rattle.bac_device_poll.specs.Poll.{IsFit};
ghost use Rattle.bac_device_poll.specs.Rejects.{reject_by};
ghost use Rattle.bac_device_poll.specs.Turns.{of_log};
ghost use Rattle.bac_device_poll.specs.Turns.{turned};
ghost use Rattle.bac_device_poll.specs.declared.question.Question.TheVariants.{Confirmed};
ghost use Rattle.bac_device_poller.specs.Poller.{AsksNext, Comes, ComesBy, GivesBy, IsEnded};
ghost use Rattle.bac_device_poller.specs.Poller.{IsPutBy, IsStepped};
ghost use Rattle.bac_device_poller.specs.Poller.{Settles, doing_behind, doing_with, end_at};
ghost use Rattle.bac_device_poller.specs.Poller.{fresh_poller, given_up};
ghost use Rattle.bac_device_poller.specs.Poller.{is_waiting, lost_of, missed};
ghost use Rattle.bac_device_poller.specs.Poller.{seeks, sought_again, stepped};
ghost use Rattle.bac_device_poller.specs.Poller.{without_answer};
ghost use Rattle.bac_device_poller.specs.Turns.{TakesLog};

use crate::doing::{Came, Doing};
use crate::ids::Ids;
use crate::line::Line;
use crate::rows::Rows;
use crate::status::Status;
use crate::telling::told_by;
use crate::transacting::close;
use bac_archive::Put;
use bac_device_poll::{DeviceEnd, DevicePoll, Entry, Question, Step, Turn, Way};
use bac_drive::Next;
use bac_link::{Request, Timeout, Transactions};
use bac_poll::Turn as LogTurn;
use bac_wire::{Address, Datagram};
use std::alloc::{AllocError, Global};
use std::marker::Model;

/// The poll of a device over transactions: what is to be done next, and what it makes of what
/// comes.
#[derive(Drop)]
pub struct DevicePoller {
    pub(crate) poll: DevicePoll,
    pub(crate) transactions: Transactions,
    pub(crate) way: Way,
    /// How often its Who-Is is repeated.
    retries: u8,
    /// How often it was.
    sought: u8,
    pub(crate) doing: Doing,
    pub(crate) rows: Rows,
}

impl Model for DevicePoller {
    ghost use Rattle.bac_device_poller.specs.Poller.{PollerAs};

    ghost Value = { PollerAs };

    ghost view = { λ p. record {
      poll = p.poll;
      transactions = p.transactions;
      way = p.way;
      retries = p.retries;
      sought = p.sought;
      doing = p.doing;
      rows = p.rows;
    } };
}

// What it is at behind its lines.
fn doing_behind(end: Option<DeviceEnd>) -> Doing
    ensures { result ≡ doing_behind end }
{
    match end {
        Some(why) => Doing::Ended(why),
        None => Doing::Asks,
    }
}

// What it is at, whether lines are to be told first or none is.
fn doing_with(end: Option<DeviceEnd>, is_told: bool) -> Doing
    ensures { result ≡ doing_with end is_told }
{
    if is_told {
        doing_behind(end)
    } else {
        Doing::Tells(end)
    }
}

// Why nothing more is asked, if nothing is.
fn end_at(step: Step) -> Option<DeviceEnd>
    ensures { result ≡ end_at step }
{
    match step {
        Step::End(why) => Some(why),
        Step::Ask => None,
        Step::AskLater => None,
        Step::GoOn => None,
    }
}

impl DevicePoller {
    /// The poll of a device that is asked there, each request and Who-Is repeated so often, with
    /// its rows as they stand on record.
    pub fn new(
        poll: DevicePoll,
        transactions: Transactions,
        way: Way,
        retries: u8,
        rows: Rows,
    ) -> DevicePoller
        ensures { result ≡ fresh_poller poll transactions way retries rows }
    {
        DevicePoller {
            poll,
            transactions,
            way,
            retries,
            sought: 0,
            doing: Doing::Asks,
            rows,
        }
    }

    /// What it is at.
    pub fn doing(&self) -> &Doing
        ensures { result.now ≡ self.now.doing }
    {
        &self.doing
    }

    /// The address at which it is asked.
    pub fn peer(&self) -> Address
        ensures { result ≡ self.now.way.peer }
    {
        self.way.peer
    }

    /// These ids are free for its new logs.
    pub fn lend(&mut self, ids: Ids)
        ensures { self.new ≡ record self.old { rows = record self.old.rows { ids = ids } } }
    {
        self.rows.ids = ids;
    }

    /// Those that are free now.
    pub fn ids(&self) -> Ids
        ensures { result ≡ self.now.rows.ids }
    {
        self.rows.ids
    }

    /// The status that it leaves, so far.
    pub fn status(&self) -> Status
        ensures { result ≡ self.now.rows.status }
    {
        self.rows.status
    }

    /// Whether a send of its question is waited for.
    pub fn is_waiting(&self) -> bool
        ensures { result ≡ is_waiting self.now.doing }
    {
        match &self.doing {
            Doing::Waits => true,
            Doing::Asks => false,
            Doing::Resends(_) => false,
            Doing::Hears(_) => false,
            Doing::Loses => false,
            Doing::Tells(_) => false,
            Doing::Ended(_) => false,
        }
    }

    // Its question is lost.
    fn give_up(&mut self)
        ensures { self.new ≡ given_up self.old }
    {
        close(&mut self.transactions);
        self.doing = Doing::Loses;
    }

    // The open transaction is sent again, or is lost.
    fn time_out(&mut self)
        ensures { self.new ≡ without_answer self.old self.old.transactions.pending }
    {
        self.doing = match self.transactions.timeout() {
            Timeout::Resend(datagram) => Doing::Resends(datagram),
            Timeout::GaveUp => Doing::Loses,
        };
    }

    // The Who-Is is sent again, or no I-Am comes.
    fn seek_again(&mut self)
        ensures { self.new ≡ sought_again self.old }
    {
        if self.sought < self.retries {
            self.sought += 1;
            self.doing = Doing::Resends(self.way.who_is());
        } else {
            self.give_up();
        }
    }

    /// No answer came in time.
    pub fn miss(&mut self)
        ensures { self.new ≡ missed self.old }
    {
        if self.seeks() {
            return self.seek_again();
        }
        if self.poll.is_sent_once() {
            return self.give_up();
        }
        self.time_out();
    }
}

impl DevicePoller {
    // The next log is begun, if the poll of one has ended; and how it goes on.
    fn go_on(&mut self, alloc: Global, step: Step) -> Result<Step, AllocError>
        ensures { IfOk result (λ next. IsStepped (stepped step self.old.poll) self.old next
            self.new) }
    {
        match step {
            Step::GoOn => {
                let turn = self.poll.go_on(alloc)?;
                self.rows.bring_all(alloc, turn.entries.as_slice())?;
                Ok(turn.step)
            }
            Step::Ask => Ok(step),
            Step::AskLater => Ok(step),
            Step::End(_) => Ok(step),
        }
    }

    // What is to be put, with which it goes on so.
    fn take_puts(&mut self, alloc: Global, step: Step) -> Vec<Put>
        ensures { IsPutBy step self.old.rows self.old result.items self.new }
    {
        let end = end_at(step);
        self.doing = doing_with(end, self.rows.lines.is_empty());
        self.rows.take_puts(alloc)
    }

    // What the log that is polled brings is to be put, or told.
    fn take_log(&mut self, alloc: Global, log: &Option<LogTurn>) -> Result<(), AllocError>
        ensures takes { OnOk result (TakesLog (of_log log.now self.old.poll.polled)
            self.old.poll.polled self.old.rows self.new.rows) }
        ensures rest { self.new ≡ record self.old { rows = self.new.rows } }
    {
        self.rows.take_log(alloc, self.poll.polled(), log)
    }

    // Whether one is polled.
    fn is_polled(&self) -> bool
        ensures { result ≡ is_some self.now.poll.polled }
    {
        match self.poll.polled() {
            Some(_) => true,
            None => false,
        }
    }

    // Entries are to be put, or told, and it goes on so: what is to be put.
    fn end(&mut self, alloc: Global, entries: &[Entry], step: Step) -> Result<Vec<Put>, AllocError>
        ensures { IfOk result (λ puts. IsEnded step entries.now (is_some self.old.poll.polled)
            self.old puts.items self.new) }
    {
        let polled = self.is_polled();
        self.rows.bring_all(alloc, entries)?;
        let step = self.go_on(alloc, step)?;
        self.rows.leave_at(alloc, step, polled)?;
        Ok(self.take_puts(alloc, step))
    }

    // What is to be put of a turn of its poll; the rest of it is to be told.
    fn settle(&mut self, alloc: Global, turn: Turn) -> Result<Vec<Put>, AllocError>
        ensures { IfOk result (λ puts. Settles (turned self.old.poll turn) self.old puts.items
            self.new) }
    {
        let Turn { entries, log, step } = turn;
        self.take_log(alloc, &log)?;
        let puts = self.end(alloc, entries.as_slice(), step)?;
        Ok(puts)
    }

    // The poll of the next log is begun.
    fn begin_next(&mut self, alloc: Global) -> Result<Next, AllocError>
        ensures { IfOk result (λ next. AsksNext Question.Nothing self.old next self.new) }
    {
        let turn = self.poll.go_on(alloc)?;
        let puts = self.settle(alloc, turn)?;
        Ok(Next::Keep(puts))
    }

    // Its Who-Is is sent.
    fn seek(&mut self) -> Next
        ensures { AsksNext Question.WhoIs self.old result self.new }
    {
        self.sought = 0;
        self.doing = Doing::Waits;
        Next::Send(self.way.who_is(), self.way.peer)
    }

    // Its question is sent, by the next transaction.
    fn ask(&mut self, alloc: Global) -> Result<Next, AllocError>
        ensures { IfOk result (λ next. GivesBy Doing.Asks self.old next self.new) }
    {
        match self.poll.question() {
            Question::Confirmed(request) => {
                // In a list of one, since the prover doesn't take a request that is lent from a
                // variable.
                let questions = [request];
                let datagram = begin(&mut self.transactions, &questions[0]);
                self.doing = Doing::Waits;
                Ok(Next::Send(datagram, self.way.peer))
            }
            Question::WhoIs => Ok(self.seek()),
            Question::Nothing => self.begin_next(alloc),
        }
    }

    // It is sent again.
    fn resend(&mut self, datagram: Datagram) -> Next
        ensures { GivesBy (Doing.Resends datagram) self.old result self.new }
    {
        self.doing = Doing::Waits;
        Next::Send(datagram, self.way.peer)
    }

    // What an answer makes of its poll.
    fn take_answer(&mut self, alloc: Global, came: &Came) -> Result<Turn, AllocError>
        ensures comes { IfOk result (λ turn. Comes (seeks self.old) self.old came.now
            (turned self.new.poll turn)) }
        ensures rest { self.new ≡ record self.old { poll = self.new.poll } }
    {
        if self.seeks() {
            let device = self.way.i_am(came.from, came.datagram.octets());
            return self.poll.hear_i_am(alloc, device);
        }
        self.poll.take(alloc, &came.datagram, came.at)
    }

    // What an answer, or a rejection, makes of its poll.
    fn take(&mut self, alloc: Global, came: &Came) -> Result<Turn, AllocError>
        ensures comes { IfOk result (λ turn.
            ComesBy (reject_by self.old.way came.now.from came.now.datagram) self.old came.now
            (turned self.new.poll turn)) }
        ensures rest { self.new ≡ record self.old { poll = self.new.poll } }
    {
        match self.way.reject(came.from, came.datagram.octets()) {
            Some(reject) => self.poll.hear_reject(alloc, reject),
            None => self.take_answer(alloc, came),
        }
    }

    // It came: what is put of it.
    fn keep(&mut self, alloc: Global, came: &Came) -> Result<Next, AllocError>
        ensures { IfOk result (λ next. GivesBy (Doing.Hears came.now) self.old next self.new) }
    {
        let turn = self.take(alloc, came)?;
        let puts = self.settle(alloc, turn)?;
        Ok(Next::Keep(puts))
    }

    // What no answer makes of its poll.
    fn lose_question(&mut self, alloc: Global) -> Result<Turn, AllocError>
        ensures lost { IfOk result (λ turn. turned self.new.poll turn ≡ lost_of self.old) }
        ensures rest { self.new ≡ record self.old { poll = self.new.poll } }
    {
        if self.seeks() {
            return self.poll.hear_i_am(alloc, None);
        }
        self.poll.lose(alloc)
    }

    // None came: what is put of that.
    fn lose(&mut self, alloc: Global) -> Result<Next, AllocError>
        ensures { IfOk result (λ next. GivesBy Doing.Loses self.old next self.new) }
    {
        let turn = self.lose_question(alloc)?;
        let puts = self.settle(alloc, turn)?;
        Ok(Next::Keep(puts))
    }

    // The next line is told.
    fn tell(&mut self, end: Option<DeviceEnd>) -> Next
        ensures { GivesBy (Doing.Tells end) self.old result self.new }
    {
        match self.rows.lines.pop_front() {
            Some(line) => {
                let Line { good, text } = line;
                self.doing = doing_with(end, self.rows.lines.is_empty());
                told_by(good, text)
            }
            None => {
                self.doing = doing_behind(end);
                Next::Read
            }
        }
    }

    /// What is to be done next. After want of memory the poll is of no use.
    pub fn next(&mut self, alloc: Global) -> Result<Next, AllocError>
        ensures { IfOk result (λ next. GivesBy self.old.doing self.old next self.new) }
    {
        match &self.doing {
            Doing::Asks => self.ask(alloc),
            Doing::Resends(datagram) => {
                let datagram = datagram.copy();
                Ok(self.resend(datagram))
            }
            Doing::Waits => Ok(Next::Read),
            Doing::Hears(came) => {
                let came = came.copy();
                self.keep(alloc, &came)
            }
            Doing::Loses => self.lose(alloc),
            Doing::Tells(end) => {
                let end = *end;
                Ok(self.tell(end))
            }
            Doing::Ended(_) => Ok(Next::End),
        }
    }
}

// A request that fits is sent, by the next transaction.
fn begin(transactions: &mut Transactions, request: &Request) -> Datagram
    requires fits { IsFit (Confirmed request.now) }
    ensures datagram { result ≡ request_octets (towards transactions.old.route)
        (next_invoke transactions.old.invoke) request.now }
    ensures begun { transactions.new ≡ begun_with request.now transactions.old }
{
    match transactions.begin(request) {
        Ok(datagram) => datagram,
        Err(_) => unreachable!(),
    }
}
