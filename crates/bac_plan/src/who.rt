//! By what a device is known, and what lines call it, by its row.

ghost use Rattle.std.specs.Prelude.{◌≡◌, ◌++◌, IfErr, IfOk, OnOk};
ghost use Rattle.bac_plan.specs.Devices.{IsDeviceFault, called_of, named_by, place_text, who_of};

use crate::fault::PlanFault;
use bac_archive::DeviceRow;
use bac_device_poll::{Text, Who};
use bac_print::push_number;
use bac_wire::ObjectId;
use std::alloc::{AllocError, Global};

/// The type of a Device object (clause 21, BACnetObjectType).
const DEVICE: u16 = 8;

// A device that is known by its name, if it has one.
fn named_by(alloc: Global, name: &Option<String>) -> Result<Option<Who>, AllocError>
    ensures { IfOk result (λ who. who ≡ named_by name.now) }
{
    match name {
        Some(name) => {
            let name = Text::of(alloc, name.as_bytes())?;
            Ok(Some(Who::Name(name)))
        }
        None => Ok(None),
    }
}

/// By what it is known: its instance, or else its name; of one that is new nothing is.
pub(crate) fn who_of(alloc: Global, device: &DeviceRow) -> Result<Option<Who>, PlanFault>
    ensures ok { IfOk result (λ who. who ≡ who_of device.now) }
    ensures err { IfErr result (IsDeviceFault device.now) }
{
    match device.instance {
        Some(instance) => match ObjectId::new(DEVICE, instance) {
            Some(object) => Ok(Some(Who::Device(object))),
            None => Err(PlanFault::Device(device.id)),
        },
        None => Ok(named_by(alloc, &device.name)?),
    }
}

// Appends its place behind a router, if it is behind one.
fn push_place(text: &mut Vec<u8>, device: &DeviceRow) -> Result<(), AllocError>
    ensures { OnOk result (text.new.items ≡ text.old.items ++ place_text device.now) }
{
    if device.dnet == 0 {
        return Ok(());
    }
    text.extend_from_slice(b"/")?;
    push_number(text, u64::from(device.dnet))?;
    text.extend_from_slice(b"/")?;
    text.extend_from_slice(device.dadr.as_bytes())
}

/// How lines call it: by its address, and behind a router by its network and its address there.
pub(crate) fn called_of(alloc: Global, device: &DeviceRow) -> Result<Vec<u8>, AllocError>
    ensures { IfOk result (λ text. text.items ≡ called_of device.now) }
{
    let mut text = Vec::new(alloc);
    text.extend_from_slice(device.address.as_bytes())?;
    push_place(&mut text, device)?;
    Ok(text)
}
