//! A device tells of its restart and of its database, its word.

ghost use Rattle.std.specs.Prelude.{◌≡◌, IfOk};
ghost use Rattle.bac_device_poll.specs.Poll.{after_restart, after_revision};
ghost use Rattle.bac_device_poll.specs.Turns.{turned};

use crate::poll::DevicePoll;
use crate::stage::Stage;
use crate::turn::{Turn, none};
use bac_poll::DateTime;
use std::alloc::{AllocError, Global};

impl DevicePoll {
    /// Takes its Time_Of_Device_Restart, as it is kept (no octets: it tells none) and as a date and
    /// time (unknown, if it is none).
    pub(crate) fn hear_restart(&mut self, alloc: Global, restart: Vec<u8>, moment: DateTime) -> Turn
        ensures { turned self.new result ≡ after_restart self.old restart.items moment }
    {
        self.told.restart = restart;
        self.told.moment = moment;
        self.stage = Stage::Revision;
        Turn::asks(none(alloc))
    }

    /// Takes its Database_Revision, if it tells one.
    pub(crate) fn hear_revision(
        &mut self,
        alloc: Global,
        revision: Option<u32>,
    ) -> Result<Turn, AllocError>
        ensures { IfOk result (λ turn. turned self.new turn ≡ after_revision self.old revision) }
    {
        self.told.revision = revision;
        self.ask_clock(alloc)
    }
}
