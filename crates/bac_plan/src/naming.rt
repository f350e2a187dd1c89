//! What words name goes on record.

ghost use Rattle.std.specs.Prelude.{◌≡◌, ◌⊎◌, ◌++◌, Err, IfErr, IfOk, Ok, OnOk, map};
ghost use Rattle.bac_device_poller.specs.Puts.{put_as};
ghost use Rattle.bac_device_poller.specs.Rows.{device_as};
ghost use Rattle.bac_plan.specs.Naming.{named_rows, new_device_put, new_log_put, rows_of};

use crate::changes::{put_devices, put_logs};
use crate::fault::NamingFault;
use crate::fresh_device::fresh_devices;
use crate::fresh_log::{FreshLog, fresh_logs};
use crate::named::Named;
use bac_archive::{DeviceRow, LogRow, Put, Standing};
use std::alloc::{AllocError, Global};

// Puts new devices.
fn put_new_devices(puts: &mut Vec<Put>, rows: Vec<DeviceRow>) -> Result<(), AllocError>
    ensures { OnOk result (map put_as puts.new.items ≡ map put_as puts.old.items
        ++ map (λ d. new_device_put (device_as d)) rows.items) }
{
    for row in rows {
        puts.push(Put::NewDevice(row))?;
    }
    Ok(())
}

// The row of a log that is new.
fn new_log(log: FreshLog) -> LogRow
    ensures { put_as (Put.NewLog result) ≡ new_log_put log }
{
    LogRow {
        id: log.id,
        device: log.device,
        instance: log.instance,
        name: None,
        source: None,
        units: None,
        description: None,
        restart: None,
        revision: None,
        stopped: false,
    }
}

// Puts new logs.
fn put_new_logs(puts: &mut Vec<Put>, logs: &[FreshLog]) -> Result<(), AllocError>
    ensures { OnOk result (map put_as puts.new.items
        ≡ map put_as puts.old.items ++ map new_log_put logs.now) }
{
    for log in logs {
        puts.push(Put::NewLog(new_log(*log)))?;
    }
    Ok(())
}

// All of them, those of devices first.
fn rows_of(
    alloc: Global,
    told: &Standing,
    named: &[Named],
    devices: Vec<DeviceRow>,
    logs: &[FreshLog],
) -> Result<Vec<Put>, AllocError>
    ensures { IfOk result (λ puts. map put_as puts.items
        ≡ rows_of told.now named.now (map device_as devices.items) logs.now) }
{
    let mut puts = Vec::new(alloc);
    put_devices(&mut puts, named, told.devices.as_slice())?;
    put_new_devices(&mut puts, devices)?;
    put_logs(
        &mut puts,
        named,
        told.devices.as_slice(),
        told.logs.as_slice(),
    )?;
    put_new_logs(&mut puts, logs)?;
    Ok(puts)
}

/// The rows that are put so that what words name is on record, where an archive tells this: a
/// device that is named is there and isn't stopped, and is kept whole if it is named so; a log that
/// is named is there and isn't stopped. Of a device that was stopped and is named with all of its
/// logs, all that were stopped begin again. No row is there twice, and none of what is on record so
/// already.
pub fn rows_named(alloc: Global, told: &Standing, named: &[Named]) -> Result<Vec<Put>, NamingFault>
    ensures ok { IfOk result (λ puts. named_rows told.now named.now ≡ Ok (map put_as puts.items)) }
    ensures err { IfErr result (λ e. (e ≡ NamingFault.Memory)
        ⊎ (named_rows told.now named.now ≡ Err e)) }
{
    let devices = told.devices.as_slice();
    let fresh = fresh_devices(alloc, named, devices, told.next_device)?;
    let logs = fresh_logs(
        alloc,
        named,
        devices,
        fresh.rows.as_slice(),
        told.logs.as_slice(),
        told.next_log,
    )?;
    Ok(rows_of(alloc, told, named, fresh.rows, logs.logs.as_slice())?)
}
