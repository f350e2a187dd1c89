//! The clock of a device.

ghost use Rattle.std.specs.Prelude.{◌≡◌, IfOk};
ghost use Rattle.bac_device_poll.specs.Clock.{after_clock, after_date, clocks};
ghost use Rattle.bac_device_poll.specs.Turns.{turned};

use crate::poll::DevicePoll;
use crate::stage::Stage;
use crate::turn::{Turn, none, only};
use bac_answers::{Entry, Offset};
use bac_wire::Date4;
use std::alloc::{AllocError, Global};

impl DevicePoll {
    /// Its clock is asked for, once a day.
    pub(crate) fn ask_clock(&mut self, alloc: Global) -> Result<Turn, AllocError>
        ensures { IfOk result (λ turn. turned self.new turn ≡ clocks self.old) }
    {
        if self.clock {
            self.stage = Stage::Date;
            return Ok(Turn::asks(none(alloc)));
        }
        self.ask_list(alloc, none(alloc))
    }

    /// Takes its Local_Date, if it tells one.
    pub(crate) fn hear_date(
        &mut self,
        alloc: Global,
        date: Option<Date4>,
    ) -> Result<Turn, AllocError>
        ensures { IfOk result (λ turn. turned self.new turn ≡ after_date self.old date) }
    {
        match date {
            Some(date) => {
                self.stage = Stage::Time(date);
                Ok(Turn::asks(none(alloc)))
            }
            None => self.set_clock(alloc, None),
        }
    }

    /// Its clock is so far from this machine's, or it tells none.
    pub(crate) fn set_clock(
        &mut self,
        alloc: Global,
        offset: Option<Offset>,
    ) -> Result<Turn, AllocError>
        ensures { IfOk result (λ turn. turned self.new turn ≡ after_clock self.old offset) }
    {
        let entries = only(alloc, Entry::Clock(offset))?;
        self.ask_list(alloc, entries)
    }
}
