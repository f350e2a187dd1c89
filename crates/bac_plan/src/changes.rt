//! The rows on record that words change.

ghost use Rattle.std.specs.Prelude.{◌≡◌, ◌++◌, OnOk, map};
ghost use Rattle.std.specs.List.{flat_map};
ghost use Rattle.std.specs.Option.{option_copied};
ghost use Rattle.bac_device_poller.specs.Puts.{put_as};
ghost use Rattle.bac_device_poller.specs.Rows.{device_as};
ghost use Rattle.bac_plan.specs.Changes.{asks_again, device_change, device_of, log_change};
ghost use Rattle.bac_plan.specs.Changes.{names_device, names_log, names_whole, revision_for};

use crate::named::Named;
use crate::rows::{device_row, log_row};
use bac_archive::{DeviceRow, LogRow, Put};
use std::alloc::AllocError;

/// Whether words name a device.
pub(crate) fn names_device(named: &[Named], device: &DeviceRow) -> bool
    ensures { result ≡ names_device named.now (device_as device.now) }
{
    for one in named {
        if one.is_at(device) {
            return true;
        }
    }
    false
}

/// Whether they name all of its trend logs.
pub(crate) fn names_whole(named: &[Named], device: &DeviceRow) -> bool
    ensures { result ≡ names_whole named.now (device_as device.now) }
{
    for one in named {
        if one.is_at(device) && one.is_whole() {
            return true;
        }
    }
    false
}

// Whether they name a log of it: for itself, or with all of a device that was stopped.
fn names_log(named: &[Named], device: &DeviceRow, instance: u32) -> bool
    ensures { result ≡ names_log named.now (device_as device.now) instance }
{
    for one in named {
        if one.is_at(device) && (one.has_instance(instance) || (one.is_whole() && device.stopped)) {
            return true;
        }
    }
    false
}

// The revision of a device that is kept whole from now on isn't that of a list that was asked for.
fn revision_for(device: &DeviceRow, whole: bool) -> Option<u32>
    ensures { result ≡ revision_for whole (device_as device.now) }
{
    if whole && !device.whole {
        None
    } else {
        device.revision
    }
}

// Puts the row of a device, if the words change it.
fn put_device(puts: &mut Vec<Put>, named: &[Named], device: &DeviceRow) -> Result<(), AllocError>
    ensures { OnOk result (map put_as puts.new.items
        ≡ map put_as puts.old.items ++ device_change named.now (device_as device.now)) }
{
    let whole = names_whole(named, device);
    if (device.stopped && names_device(named, device)) || (whole && !device.whole) {
        let revision = revision_for(device, whole);
        let whole = device.whole || whole;
        puts.push(Put::Device(device_row(device, revision, whole, false)?))?;
    }
    Ok(())
}

/// Puts the rows of devices that the words change.
pub(crate) fn put_devices(
    puts: &mut Vec<Put>,
    named: &[Named],
    devices: &[DeviceRow],
) -> Result<(), AllocError>
    ensures { OnOk result (map put_as puts.new.items ≡ map put_as puts.old.items
        ++ flat_map (λ d. device_change named.now (device_as d)) devices.now) }
{
    for device in devices {
        put_device(puts, named, device)?;
    }
    Ok(())
}

/// The row of the device with this id.
pub(crate) fn device_of(devices: &[DeviceRow], id: u16) -> Option<&DeviceRow>
    ensures { option_copied result ≡ device_of id devices.now }
{
    for device in devices {
        if device.id == id {
            return Some(device);
        }
    }
    None
}

// Whether a log that is stopped is to be asked again.
fn asks_again(named: &[Named], devices: &[DeviceRow], log: &LogRow) -> bool
    ensures { result ≡ asks_again named.now devices.now log.now }
{
    if !log.stopped {
        return false;
    }
    match device_of(devices, log.device) {
        Some(device) => names_log(named, device, log.instance),
        None => false,
    }
}

// Puts the row of a log, if the words change it.
fn put_log(
    puts: &mut Vec<Put>,
    named: &[Named],
    devices: &[DeviceRow],
    log: &LogRow,
) -> Result<(), AllocError>
    ensures { OnOk result (map put_as puts.new.items
        ≡ map put_as puts.old.items ++ log_change named.now devices.now log.now) }
{
    if asks_again(named, devices, log) {
        puts.push(Put::Log(log_row(log, false)?))?;
    }
    Ok(())
}

/// Puts the rows of logs that the words change.
pub(crate) fn put_logs(
    puts: &mut Vec<Put>,
    named: &[Named],
    devices: &[DeviceRow],
    logs: &[LogRow],
) -> Result<(), AllocError>
    ensures { OnOk result (map put_as puts.new.items ≡ map put_as puts.old.items
        ++ flat_map (log_change named.now devices.now) logs.now) }
{
    for log in logs {
        put_log(puts, named, devices, log)?;
    }
    Ok(())
}
