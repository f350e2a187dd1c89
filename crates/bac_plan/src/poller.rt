//! The poller of a device, by its row and those of its logs.

ghost use Rattle.std.specs.Prelude.{◌≡◌, IfErr, IfOk};
ghost use Rattle.bac_plan.specs.Pollers.{IsKnown, IsPoller, IsPollerFault};

use crate::clock::asks_clock;
use crate::fault::PlanFault;
use crate::logs::{records_of, stopped_of, tasks_of};
use crate::options::Options;
use crate::way::{transactions_on, way_of};
use crate::who::{called_of, who_of};
use bac_archive::{DeviceRow, LogRow};
use bac_device_poll::{DevicePoll, Known};
use bac_device_poller::{DevicePoller, Rows};
use bac_resume::LogRows;
use std::alloc::Global;

// What is on record of a device.
fn known_of(alloc: Global, device: &DeviceRow, logs: &[LogRow]) -> Result<Known, PlanFault>
    ensures ok { IfOk result (IsKnown device.now logs.now) }
    ensures err { IfErr result (IsPollerFault device.now logs.now) }
{
    let who = who_of(alloc, device)?;
    let stopped = stopped_of(alloc, logs)?;
    Ok(Known {
        who,
        revision: device.revision,
        whole: device.whole,
        others: None,
        stopped,
    })
}

/// The poller of the device of this row, which has these logs, of which an archive tells this.
pub(crate) fn poller_of(
    alloc: Global,
    device: DeviceRow,
    logs: &[LogRow],
    told: &[LogRows],
    options: &Options,
) -> Result<DevicePoller, PlanFault>
    ensures ok { IfOk result (IsPoller options.now told.now device logs.now) }
    ensures err { IfErr result (IsPollerFault device logs.now) }
{
    let way = way_of(alloc, &device)?;
    let known = known_of(alloc, &device, logs)?;
    let tasks = tasks_of(alloc, logs, told)?;
    let called = called_of(alloc, &device)?;
    let records = records_of(alloc, called.as_slice(), logs, told)?;
    let clock = asks_clock(alloc, options, &device)?;
    let transactions = transactions_on(&way, options.retries);
    let poll = DevicePoll::new(alloc, known, tasks, options.records, options.retries, clock);
    let poll = poll.with_steps(options.steps);
    let rows = Rows::new(alloc, device, called, records);
    Ok(DevicePoller::new(poll, transactions, way, options.retries, rows))
}
