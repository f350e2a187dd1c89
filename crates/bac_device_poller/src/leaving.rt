//! What is put and told of a device of which nothing more is asked.

ghost use Rattle.std.specs.Prelude.{◌≡◌, OnOk, false};
ghost use Rattle.bac_device_poller.specs.Entries.{telling};
ghost use Rattle.bac_device_poller.specs.Poller.{left_at, left_by, putting_answered};
ghost use Rattle.bac_device_poller.specs.Telling.{silent_line};

use crate::rows::Rows;
use crate::status::status_at;
use crate::telling::silent_line;
use bac_device_poll::{DeviceEnd, Step};
use std::alloc::{AllocError, Global};

impl Rows {
    // The row of a device that answered in this run is to be put.
    fn put_answered(&mut self, alloc: Global) -> Result<(), AllocError>
        ensures { OnOk result (self.new ≡ putting_answered self.old.answered self.old) }
    {
        match self.answered {
            Some(_) => self.put_device(alloc),
            None => Ok(()),
        }
    }

    // None of its questions was answered.
    fn tell_silent(&mut self, alloc: Global) -> Result<(), AllocError>
        ensures { OnOk result (self.new
            ≡ telling self.old false (silent_line self.old.called)) }
    {
        let line = silent_line(alloc, self.called.as_slice())?;
        self.tell(false, line)
    }

    // Nothing more is asked of a device, for this reason.
    fn leave(&mut self, alloc: Global, why: DeviceEnd, polled: bool) -> Result<(), AllocError>
        ensures { OnOk result (self.new ≡ left_by why polled self.old) }
    {
        match why {
            DeviceEnd::Done => self.put_answered(alloc),
            DeviceEnd::Unreached => self.put_answered(alloc),
            DeviceEnd::Foreign => Ok(()),
            DeviceEnd::Silent => {
                self.put_answered(alloc)?;
                if polled {
                    return Ok(());
                }
                self.tell_silent(alloc)
            }
        }
    }

    /// If nothing is.
    pub(crate) fn leave_at(
        &mut self,
        alloc: Global,
        step: Step,
        polled: bool,
    ) -> Result<(), AllocError>
        ensures { OnOk result (self.new ≡ left_at step polled self.old) }
    {
        match step {
            Step::End(why) => {
                self.raise(status_at(why));
                self.leave(alloc, why, polled)
            }
            Step::Ask => Ok(()),
            Step::AskLater => Ok(()),
            Step::GoOn => Ok(()),
        }
    }
}
