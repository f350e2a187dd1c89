//! Rows that are put in place of those on record.

ghost use Rattle.std.specs.Prelude.{◌≡◌, IfOk};
ghost use Rattle.bac_archive.specs.Put.{log_columns};
ghost use Rattle.bac_device_poller.specs.Rows.{device_as};
ghost use Rattle.bac_plan.specs.Changes.{with_stopped};

use crate::texts::copied;
use bac_archive::{DeviceRow, LogRow};
use std::alloc::AllocError;

/// The row of a device, of which that revision is known, which is kept whole, or isn't, and is
/// stopped, or isn't.
pub(crate) fn device_row(
    device: &DeviceRow,
    revision: Option<u32>,
    whole: bool,
    stopped: bool,
) -> Result<DeviceRow, AllocError>
    ensures { IfOk result (λ row. device_as row
        ≡ record (device_as device.now)
        { revision = revision; whole = whole; stopped = stopped }) }
{
    let name = copied(&device.name)?;
    let answered = copied(&device.answered)?;
    Ok(DeviceRow {
        id: device.id,
        address: device.address.clone()?,
        dnet: device.dnet,
        dadr: device.dadr.clone()?,
        instance: device.instance,
        name,
        revision,
        whole,
        stopped,
        answered,
        offset: device.offset,
    })
}

/// The row of a log, which is stopped, or isn't.
pub(crate) fn log_row(log: &LogRow, stopped: bool) -> Result<LogRow, AllocError>
    ensures { IfOk result (λ row. log_columns row ≡ with_stopped stopped log.now) }
{
    let name = copied(&log.name)?;
    let source = copied(&log.source)?;
    let units = copied(&log.units)?;
    let description = copied(&log.description)?;
    let restart = copied(&log.restart)?;
    Ok(LogRow {
        id: log.id,
        device: log.device,
        instance: log.instance,
        name,
        source,
        units,
        description,
        restart,
        revision: log.revision,
        stopped,
    })
}
