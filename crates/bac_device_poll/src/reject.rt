//! A router has no route to the network of a device.

ghost use Rattle.std.specs.Prelude.{◌≡◌, IfOk};
ghost use Rattle.bac_device_poll.specs.Rejects.{after_reject, lost_log};
ghost use Rattle.bac_device_poll.specs.Turns.{of_log, turned};

use crate::logs::ended;
use crate::poll::DevicePoll;
use crate::turn::{DeviceEnd, Turn, only};
use bac_answers::{Entry, NoRoute};
use bac_poll::{PollEnd, Turn as LogTurn};
use bac_walk::WalkFault;
use std::alloc::{AllocError, Global};

impl DevicePoll {
    // The log that is polled, if one is, is lost.
    fn lost_log(&self, alloc: Global) -> Option<LogTurn>
        ensures { of_log result self.now.polled ≡ lost_log self.now.polled }
    {
        match &self.polled {
            Some(polled) => Some(ended(alloc, &polled.poll, PollEnd::Fault(WalkFault::Lost))),
            None => None,
        }
    }

    /// The router that it is behind has no route to its network (clause 6.4.4): nothing more is
    /// asked of it. After want of memory the poll is of no use.
    pub fn hear_reject(&mut self, alloc: Global, reject: NoRoute) -> Result<Turn, AllocError>
        ensures { IfOk result (λ turn. turned self.new turn ≡ after_reject self.old reject) }
    {
        let log = self.lost_log(alloc);
        let entries = only(alloc, Entry::Rejected(reject))?;
        let turn = self.leave(entries, DeviceEnd::Unreached)?;
        Ok(Turn {
            entries: turn.entries,
            log,
            step: turn.step,
        })
    }
}
