//! What words name is stopped.

ghost use Rattle.std.specs.Prelude.{◌≡◌, ◌⊎◌, ◌++◌, IfErr, IfOk, None, OnOk, Some, map};
ghost use Rattle.std.specs.List.{flat_map};
ghost use Rattle.bac_device_poller.specs.Puts.{put_as};
ghost use Rattle.bac_device_poller.specs.Rows.{device_as};
ghost use Rattle.bac_plan.specs.Stopping.{device_stop, log_stop, missing_choice, missing_from};
ghost use Rattle.bac_plan.specs.Stopping.{missing_log, stopped_rows, stops, stops_log};

use crate::changes::{device_of, names_whole};
use crate::fault::StopFault;
use crate::fresh_device::id_in;
use crate::fresh_log::has_log;
use crate::named::{Choice, Named};
use crate::rows::{device_row, log_row};
use bac_archive::{DeviceRow, LogRow, Put, Standing};
use std::alloc::{AllocError, Global};

// The first of these logs of a device that isn't on record.
fn missing_log(place: usize, id: u16, logs: &[LogRow], instances: &[u32]) -> Option<StopFault>
    ensures { result ≡ missing_log place id logs.now instances.now }
{
    for instance in instances {
        if !has_log(id, *instance, logs) {
            return Some(StopFault::NoLog(place, *instance));
        }
    }
    None
}

// Of what is named of the device with this id.
fn missing_choice(
    place: usize,
    id: Option<u16>,
    logs: &[LogRow],
    choice: &Choice,
) -> Option<StopFault>
    ensures { result ≡ missing_choice place id logs.now choice.now }
{
    match id {
        Some(id) => match choice {
            Choice::Whole => None,
            Choice::Logs(instances) => missing_log(place, id, logs, instances.as_slice()),
        },
        None => Some(StopFault::NoDevice(place)),
    }
}

// The first of what words name that isn't on record.
fn missing(told: &Standing, named: &[Named]) -> Option<StopFault>
    ensures { result ≡ missing_from 0 told.now named.now }
{
    for (place, one) in named.iter().enumerate() {
        let id = id_in(one, told.devices.as_slice());
        let fault = missing_choice(place, id, told.logs.as_slice(), &one.choice);
        if fault.is_some() {
            return fault;
        }
    }
    None
}

// Whether words name a log of a device: for itself, or with all of its logs.
fn stops_log(named: &[Named], device: &DeviceRow, instance: u32) -> bool
    ensures { result ≡ stops_log named.now (device_as device.now) instance }
{
    for one in named {
        if one.is_at(device) && (one.has_instance(instance) || one.is_whole()) {
            return true;
        }
    }
    false
}

// Whether a log is to be stopped.
fn stops(named: &[Named], devices: &[DeviceRow], log: &LogRow) -> bool
    ensures { result ≡ stops named.now devices.now log.now }
{
    match device_of(devices, log.device) {
        Some(device) => !log.stopped && stops_log(named, device, log.instance),
        None => false,
    }
}

// Puts the row of a device, if it is to be stopped.
fn put_device(puts: &mut Vec<Put>, named: &[Named], device: &DeviceRow) -> Result<(), AllocError>
    ensures { OnOk result (map put_as puts.new.items
        ≡ map put_as puts.old.items ++ device_stop named.now (device_as device.now)) }
{
    if names_whole(named, device) && !device.stopped {
        puts.push(Put::Device(device_row(device, device.revision, device.whole, true)?))?;
    }
    Ok(())
}

// The same of a log.
fn put_log(
    puts: &mut Vec<Put>,
    named: &[Named],
    devices: &[DeviceRow],
    log: &LogRow,
) -> Result<(), AllocError>
    ensures { OnOk result (map put_as puts.new.items
        ≡ map put_as puts.old.items ++ log_stop named.now devices.now log.now) }
{
    if stops(named, devices, log) {
        puts.push(Put::Log(log_row(log, true)?))?;
    }
    Ok(())
}

// Puts the rows of devices that are to be stopped.
fn put_devices(
    puts: &mut Vec<Put>,
    named: &[Named],
    devices: &[DeviceRow],
) -> Result<(), AllocError>
    ensures { OnOk result (map put_as puts.new.items ≡ map put_as puts.old.items
        ++ flat_map (λ d. device_stop named.now (device_as d)) devices.now) }
{
    for device in devices {
        put_device(puts, named, device)?;
    }
    Ok(())
}

// And of logs.
fn put_logs(
    puts: &mut Vec<Put>,
    named: &[Named],
    devices: &[DeviceRow],
    logs: &[LogRow],
) -> Result<(), AllocError>
    ensures { OnOk result (map put_as puts.new.items ≡ map put_as puts.old.items
        ++ flat_map (log_stop named.now devices.now) logs.now) }
{
    for log in logs {
        put_log(puts, named, devices, log)?;
    }
    Ok(())
}

// All of them, those of devices first.
fn stopped_rows(alloc: Global, told: &Standing, named: &[Named]) -> Result<Vec<Put>, AllocError>
    ensures { IfOk result (λ puts. map put_as puts.items ≡ stopped_rows told.now named.now) }
{
    let devices = told.devices.as_slice();
    let mut puts = Vec::new(alloc);
    put_devices(&mut puts, named, devices)?;
    put_logs(&mut puts, named, devices, told.logs.as_slice())?;
    Ok(puts)
}

/// The rows that are put so that what words name isn't asked any more: the logs that they name for
/// themselves, and a device that they name whole, with all of its logs. If one of them isn't on
/// record, the first such is told, and nothing is put.
pub fn rows_stopped(alloc: Global, told: &Standing, named: &[Named]) -> Result<Vec<Put>, StopFault>
    ensures ok { IfOk result (λ puts. (missing_from 0 told.now named.now ≡ None)
        × (map put_as puts.items ≡ stopped_rows told.now named.now)) }
    ensures err { IfErr result (λ e. (e ≡ StopFault.Memory)
        ⊎ (missing_from 0 told.now named.now ≡ Some e)) }
{
    match missing(told, named) {
        Some(fault) => Err(fault),
        None => Ok(stopped_rows(alloc, told, named)?),
    }
}
