//! Devices that words name and that aren't on record.

ghost use Rattle.std.specs.Prelude.{◌≡◌, ◌⊎◌, [], Err, IfErr, IfOk, Ok, OnOk};
ghost use Rattle.bac_device_poller.specs.Rows.{device_as};
ghost use Rattle.bac_plan.specs.Fresh.{fresh_device, has_place, id_at, id_in, new_device};
ghost use Rattle.bac_plan.specs.Fresh.{with_device, with_devices};

use crate::changes::names_whole;
use crate::fault::NamingFault;
use crate::named::Named;
use bac_archive::DeviceRow;
use std::alloc::{AllocError, Global};
use std::marker::Model;

/// New devices, and the next id that is free.
#[derive(Drop)]
pub struct FreshDevices {
    pub rows: Vec<DeviceRow>,
    pub next: u32,
}

impl Model for FreshDevices {
    ghost use Rattle.std.specs.Prelude.{map};
    ghost use Rattle.bac_device_poller.specs.Rows.{device_as};
    ghost use Rattle.bac_plan.specs.Fresh.{FreshDevicesAs};

    ghost Value = { FreshDevicesAs };

    ghost view = { λ f. record { devices = map device_as f.rows.items; next = f.next } };
}

/// The next id, if one is left.
pub(crate) fn id_at(next: u32) -> Option<u16>
    ensures { result ≡ id_at next }
{
    if next > 65_535 {
        return None;
    }
    Some(next as u16)
}

// A device of which nothing is known but where it is.
fn new_device(alloc: Global, id: u16, one: &Named) -> Result<DeviceRow, AllocError>
    ensures { IfOk result (λ row. device_as row ≡ new_device id one.now) }
{
    let address = String::from_str(alloc, one.address.as_str())?;
    let dadr = String::from_str(alloc, one.dadr.as_str())?;
    Ok(DeviceRow {
        id,
        address,
        dnet: one.dnet,
        dadr,
        instance: None,
        name: None,
        revision: None,
        whole: false,
        stopped: false,
        answered: None,
        offset: None,
    })
}

// It is kept whole, if it is named so anywhere.
fn fresh_device(
    alloc: Global,
    named: &[Named],
    id: u16,
    one: &Named,
) -> Result<DeviceRow, AllocError>
    ensures { IfOk result (λ row. device_as row ≡ fresh_device named.now id one.now) }
{
    let mut row = new_device(alloc, id, one)?;
    let whole = names_whole(named, &row);
    row.whole = whole;
    Ok(row)
}

/// Whether one of these devices is at a place.
fn has_place(one: &Named, devices: &[DeviceRow]) -> bool
    ensures { result ≡ has_place one.now devices.now }
{
    for device in devices {
        if one.is_at(device) {
            return true;
        }
    }
    false
}

/// The id of the device at a place.
pub(crate) fn id_in(one: &Named, devices: &[DeviceRow]) -> Option<u16>
    ensures { result ≡ id_in one.now devices.now }
{
    for device in devices {
        if one.is_at(device) {
            return Some(device.id);
        }
    }
    None
}

impl FreshDevices {
    // One more, if none is at its place.
    fn add(
        &mut self,
        alloc: Global,
        named: &[Named],
        devices: &[DeviceRow],
        one: &Named,
    ) -> Result<(), NamingFault>
        ensures ok { OnOk result
            (with_device named.now devices.now self.old one.now ≡ Ok self.new) }
        ensures err { IfErr result (λ e. (e ≡ NamingFault.Memory)
            ⊎ (with_device named.now devices.now self.old one.now ≡ Err e)) }
    {
        if has_place(one, devices) || has_place(one, self.rows.as_slice()) {
            return Ok(());
        }
        match id_at(self.next) {
            Some(id) => {
                let row = fresh_device(alloc, named, id, one)?;
                self.rows.push(row)?;
                self.next += 1;
                Ok(())
            }
            None => Err(NamingFault::DevicesFull),
        }
    }
}

/// Those that words name and that aren't among these, with ids from this one on.
pub(crate) fn fresh_devices(
    alloc: Global,
    named: &[Named],
    devices: &[DeviceRow],
    next: u32,
) -> Result<FreshDevices, NamingFault>
    ensures ok { IfOk result (λ fresh. with_devices named.now devices.now
        (record { devices = []; next = next }) named.now ≡ Ok fresh) }
    ensures err { IfErr result (λ e. (e ≡ NamingFault.Memory) ⊎ (with_devices named.now devices.now
        (record { devices = []; next = next }) named.now ≡ Err e)) }
{
    let mut fresh = FreshDevices {
        rows: Vec::new(alloc),
        next,
    };
    for one in named {
        fresh.add(alloc, named, devices, one)?;
    }
    Ok(fresh)
}
