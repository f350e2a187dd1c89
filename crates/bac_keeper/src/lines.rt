//! The lines that tell what is stopped.

ghost use Rattle.std.specs.Prelude.{◌≡◌, ◌++◌, IfOk, OnOk};
ghost use Rattle.std.specs.Option.{option_copied};
ghost use Rattle.bac_plan.specs.Changes.{device_of};
ghost use Rattle.bac_plan.specs.Devices.{called_of, place_text};
ghost use Rattle.bac_keeper.specs.Lines.{called_if, stopped_line, stopped_lines};

use bac_archive::{DeviceRow, LogRow, Put};
use bac_keeping::Stopped;
use bac_print::push_number;
use std::alloc::{AllocError, Global};

/// Appends the place of a device behind a router, if it is behind one.
fn push_place(text: &mut Vec<u8>, device: &DeviceRow) -> Result<(), AllocError>
    ensures { OnOk result (text.new.items ≡ text.old.items ++ place_text device.now) }
{
    if device.dnet == 0 {
        return Ok(());
    }
    text.extend_from_slice(b"/")?;
    push_number(text, u64::from(device.dnet))?;
    text.extend_from_slice(b"/")?;
    text.extend_from_slice(device.dadr.as_bytes())
}

/// Appends how lines call a device.
fn push_called(text: &mut Vec<u8>, device: &DeviceRow) -> Result<(), AllocError>
    ensures { OnOk result (text.new.items ≡ text.old.items ++ called_of device.now) }
{
    text.extend_from_slice(device.address.as_bytes())?;
    push_place(text, device)
}

/// The row of the device with this id.
fn device_of(devices: &[DeviceRow], id: u16) -> Option<&DeviceRow>
    ensures { option_copied result ≡ device_of id devices.now }
{
    for device in devices {
        if device.id == id {
            return Some(device);
        }
    }
    None
}

/// Appends how lines call that device, if it is there.
fn push_called_at(text: &mut Vec<u8>, id: u16, devices: &[DeviceRow]) -> Result<(), AllocError>
    ensures { OnOk result
        (text.new.items ≡ text.old.items ++ called_if (device_of id devices.now)) }
{
    match device_of(devices, id) {
        Some(device) => push_called(text, device),
        None => Ok(()),
    }
}

/// Appends the line of a row that is stopped.
fn push_stopped(text: &mut Vec<u8>, devices: &[DeviceRow], row: &Put) -> Result<(), AllocError>
    ensures { OnOk result (text.new.items ≡ text.old.items ++ stopped_line devices.now row.now) }
{
    match row {
        Put::Device(device) => {
            push_called(text, device)?;
            text.extend_from_slice(b" stopped\n")
        }
        Put::Log(log) => {
            push_called_at(text, log.device, devices)?;
            text.extend_from_slice(b" ")?;
            push_number(text, u64::from(log.instance))?;
            text.extend_from_slice(b" stopped\n")
        }
        Put::NewDevice(_) => Ok(()),
        Put::NewLog(_) => Ok(()),
        Put::Beginning(_) => Ok(()),
        Put::Lowered(_) => Ok(()),
        Put::Item(_) => Ok(()),
    }
}

/// A line for each row that is stopped.
pub(crate) fn stopped_lines(alloc: Global, stopped: &Stopped) -> Result<Vec<u8>, AllocError>
    ensures { IfOk result (λ text. text.items ≡ stopped_lines stopped.now) }
{
    let devices = stopped.told.devices.as_slice();
    let rows = stopped.rows.as_slice();
    let mut text = Vec::new(alloc);
    for row in rows {
        push_stopped(&mut text, devices, row)?;
    }
    Ok(text)
}
