//! No answer to a question.

ghost use Rattle.std.specs.Prelude.{◌≡◌, IfOk, None};
ghost use Rattle.bac_device_poll.specs.Loss.{after_loss, is_count, is_last, passed_over};
ghost use Rattle.bac_device_poll.specs.Loss.{unanswered, unread};
ghost use Rattle.bac_device_poll.specs.Naming.{after_description, after_log_name, after_units};
ghost use Rattle.bac_device_poll.specs.Turns.{turned};

use crate::poll::DevicePoll;
use crate::stage::Stage;
use crate::turn::{DeviceEnd, Turn, none};
use bac_poll::DateTime;
use bac_walk::WalkFault;
use bac_wire::ObjectId;
use std::alloc::{AllocError, Global};
use std::mem::replace;

// Whether how many elements its list has is asked.
fn is_count(stage: Stage) -> bool
    ensures { result ≡ is_count stage }
{
    match stage {
        Stage::Count => true,
        Stage::Instance => false,
        Stage::IAm => false,
        Stage::Name => false,
        Stage::Restart => false,
        Stage::Revision => false,
        Stage::Date => false,
        Stage::Time(_) => false,
        Stage::Objects => false,
        Stage::Element(_, _) => false,
        Stage::LogName(_) => false,
        Stage::Source(_) => false,
        Stage::Units(_) => false,
        Stage::Description(_) => false,
        Stage::Log => false,
        Stage::Between => false,
        Stage::Ended => false,
    }
}

impl DevicePoll {
    // The name of a log isn't told: the next run asks again.
    fn pass_over_name(&mut self, alloc: Global, log: ObjectId) -> Turn
        ensures { turned self.new result ≡ after_log_name (unread self.old) log None }
    {
        self.read = false;
        self.hear_log_name(alloc, log, None)
    }

    // Nor are its units.
    fn pass_over_units(&mut self, alloc: Global, log: ObjectId) -> Turn
        ensures { turned self.new result ≡ after_units (unread self.old) log None }
    {
        self.read = false;
        self.hear_units(alloc, log, None)
    }

    // Nor is its description, or what it logs: it is on record by what was told of it before.
    fn pass_over_log(&mut self, alloc: Global, log: ObjectId) -> Result<Turn, AllocError>
        ensures { IfOk result (λ turn. turned self.new turn
            ≡ after_description (unread self.old) log None) }
    {
        self.read = false;
        self.hear_description(alloc, log, None)
    }

    // A question before its logs are polled isn't answered.
    fn pass_over(&mut self, alloc: Global) -> Result<Turn, AllocError>
        ensures { IfOk result (λ turn. turned self.new turn
            ≡ passed_over self.old.stage self.old) }
    {
        match self.stage() {
            Stage::Restart => Ok(self.hear_restart(alloc, Vec::new(alloc), DateTime::unknown())),
            Stage::Revision => self.hear_revision(alloc, None),
            Stage::Date => self.hear_date(alloc, None),
            Stage::Time(_) => self.set_clock(alloc, None),
            Stage::Objects => Ok(self.ask_count(alloc)),
            Stage::Count => self.miss_list(alloc, WalkFault::Lost),
            Stage::Element(_, _) => self.miss_list(alloc, WalkFault::Lost),
            Stage::LogName(log) => Ok(self.pass_over_name(alloc, log)),
            Stage::Source(log) => self.pass_over_log(alloc, log),
            Stage::Units(log) => Ok(self.pass_over_units(alloc, log)),
            Stage::Description(log) => self.pass_over_log(alloc, log),
            Stage::Instance => self.leave(none(alloc), DeviceEnd::Silent),
            Stage::IAm => self.leave(none(alloc), DeviceEnd::Silent),
            Stage::Name => self.leave(none(alloc), DeviceEnd::Silent),
            Stage::Log => self.leave(none(alloc), DeviceEnd::Silent),
            Stage::Between => self.leave(none(alloc), DeviceEnd::Silent),
            Stage::Ended => self.leave(none(alloc), DeviceEnd::Silent),
        }
    }

    // Whether the question before wasn't answered either, but for the list that it is about, too.
    fn is_last(&self) -> bool
        ensures { result ≡ is_last self.now }
    {
        self.doubt && !is_count(self.stage)
    }

    // The same; behind another one that wasn't the device is silent.
    fn lose_question(&mut self, alloc: Global) -> Result<Turn, AllocError>
        ensures { IfOk result (λ turn. turned self.new turn ≡ unanswered self.old) }
    {
        if self.is_last() {
            return self.leave(none(alloc), DeviceEnd::Silent);
        }
        self.doubt = true;
        self.pass_over(alloc)
    }

    /// No answer came, to any send of its question. After want of memory the poll is of no use.
    pub fn lose(&mut self, alloc: Global) -> Result<Turn, AllocError>
        ensures { IfOk result (λ turn. turned self.new turn ≡ after_loss self.old) }
    {
        match replace(&mut self.polled, None) {
            Some(polled) => self.lose_log(alloc, polled),
            None => self.lose_question(alloc),
        }
    }
}
