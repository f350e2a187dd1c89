//! Trend logs that words name and that aren't on record.

ghost use Rattle.std.specs.Prelude.{◌≡◌, ◌⊎◌, [], Err, IfErr, IfOk, Ok, OnOk, map};
ghost use Rattle.bac_device_poller.specs.Rows.{device_as};
ghost use Rattle.bac_plan.specs.Fresh.{has_log, id_of, is_fresh_log, with_choice, with_instances};
ghost use Rattle.bac_plan.specs.Fresh.{with_log, with_logs};

use crate::fault::NamingFault;
use crate::fresh_device::{id_at, id_in};
use crate::named::{Choice, Named};
use bac_archive::{DeviceRow, LogRow};
use std::alloc::Global;
use std::marker::Model;

/// A log that is new.
#[derive(Clone, Copy, Debug, PartialEq, Eq)]
pub struct FreshLog {
    pub id: u16,
    pub device: u16,
    pub instance: u32,
}

/// New logs, and the next id that is free.
#[derive(Drop)]
pub struct FreshLogs {
    pub logs: Vec<FreshLog>,
    pub next: u32,
}

impl Model for FreshLogs {
    ghost use Rattle.bac_plan.specs.Fresh.{FreshLogsAs};

    ghost Value = { FreshLogsAs };

    ghost view = { λ f. record { logs = f.logs.items; next = f.next } };
}

/// Whether a log of a device is on record.
pub(crate) fn has_log(device: u16, instance: u32, logs: &[LogRow]) -> bool
    ensures { result ≡ has_log device instance logs.now }
{
    for log in logs {
        if log.device == device && log.instance == instance {
            return true;
        }
    }
    false
}

// Whether it is new.
fn is_fresh_log(device: u16, instance: u32, logs: &[FreshLog]) -> bool
    ensures { result ≡ is_fresh_log device instance logs.now }
{
    for log in logs {
        if log.device == device && log.instance == instance {
            return true;
        }
    }
    false
}

// The id of the device that is named: on record, or new.
fn id_of(one: &Named, devices: &[DeviceRow], fresh: &[DeviceRow]) -> Option<u16>
    ensures { result ≡ id_of one.now devices.now (map device_as fresh.now) }
{
    match id_in(one, devices) {
        Some(id) => Some(id),
        None => id_in(one, fresh),
    }
}

impl FreshLogs {
    // One more, if its device has none with its instance.
    fn add(&mut self, logs: &[LogRow], device: u16, instance: u32) -> Result<(), NamingFault>
        ensures ok { OnOk result (with_log logs.now device self.old instance ≡ Ok self.new) }
        ensures err { IfErr result (λ e. (e ≡ NamingFault.Memory)
            ⊎ (with_log logs.now device self.old instance ≡ Err e)) }
    {
        if has_log(device, instance, logs) || is_fresh_log(device, instance, self.logs.as_slice()) {
            return Ok(());
        }
        match id_at(self.next) {
            Some(id) => {
                self.logs.push(FreshLog {
                    id,
                    device,
                    instance,
                })?;
                self.next += 1;
                Ok(())
            }
            None => Err(NamingFault::LogsFull),
        }
    }

    // These of a device.
    fn add_instances(
        &mut self,
        logs: &[LogRow],
        device: u16,
        instances: &[u32],
    ) -> Result<(), NamingFault>
        ensures ok { OnOk result
            (with_instances logs.now device self.old instances.now ≡ Ok self.new) }
        ensures err { IfErr result (λ e. (e ≡ NamingFault.Memory)
            ⊎ (with_instances logs.now device self.old instances.now ≡ Err e)) }
    {
        for instance in instances {
            self.add(logs, device, *instance)?;
        }
        Ok(())
    }

    // Those that are named of the device with this id.
    fn add_choice(
        &mut self,
        logs: &[LogRow],
        device: Option<u16>,
        choice: &Choice,
    ) -> Result<(), NamingFault>
        ensures ok { OnOk result (with_choice logs.now device self.old choice.now ≡ Ok self.new) }
        ensures err { IfErr result (λ e. (e ≡ NamingFault.Memory)
            ⊎ (with_choice logs.now device self.old choice.now ≡ Err e)) }
    {
        match choice {
            Choice::Whole => Ok(()),
            Choice::Logs(instances) => match device {
                Some(device) => self.add_instances(logs, device, instances.as_slice()),
                None => Ok(()),
            },
        }
    }
}

/// Those that words name and that aren't among these, of devices on record and new ones, with ids
/// from this one on.
pub(crate) fn fresh_logs(
    alloc: Global,
    named: &[Named],
    devices: &[DeviceRow],
    fresh: &[DeviceRow],
    logs: &[LogRow],
    next: u32,
) -> Result<FreshLogs, NamingFault>
    ensures ok { IfOk result (λ made. with_logs devices.now (map device_as fresh.now) logs.now
        (record { logs = []; next = next }) named.now ≡ Ok made) }
    ensures err { IfErr result (λ e. (e ≡ NamingFault.Memory)
        ⊎ (with_logs devices.now (map device_as fresh.now) logs.now
        (record { logs = []; next = next }) named.now ≡ Err e)) }
{
    let mut made = FreshLogs {
        logs: Vec::new(alloc),
        next,
    };
    for one in named {
        made.add_choice(logs, id_of(one, devices, fresh), &one.choice)?;
    }
    Ok(made)
}
