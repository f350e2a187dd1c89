//! By what a device is known.

ghost use Rattle.std.specs.Prelude.{◌≡◌, IfOk, Some};
ghost use Rattle.bac_answers.specs.Values.{object_of, told_by};
ghost use Rattle.bac_answers.specs.Who.{device_of, itself, own_device, whose, whose_address};
ghost use Rattle.bac_answers.specs.Who.{whose_device, whose_name};

use crate::read::told_object;
use crate::text::Text;
use bac_link::Verdict;
use bac_wire::{Datagram, ObjectId};
use std::alloc::{AllocError, Global};

/// The type of a Device object (clause 21, BACnetObjectType).
const DEVICE: u16 = 8;

/// The instance by which each device answers for its own Device object (clause 15.5).
const ITSELF: u32 = 4_194_303;

/// By what a device is known.
#[derive(Debug, Drop)]
pub enum Who {
    /// Its Device object, by whose instance it is told apart (clause 12.11).
    Device(ObjectId),
    /// Its Object_Name, of one that doesn't tell its instance.
    Name(Text),
    /// Its address alone, of one that tells neither.
    Address,
}

/// Whose answers these are, against the device on record.
#[derive(Clone, Copy, Debug, PartialEq, Eq)]
pub enum Whose {
    /// None is on record.
    New,
    /// The device on record.
    Same,
    /// It tells more of itself than is on record: from now on it is known by that.
    Now,
    /// Another one.
    Another,
    /// It no longer tells what it is known by.
    Untold,
}

impl Who {
    /// The same again.
    pub fn copied(&self, alloc: Global) -> Result<Who, AllocError>
        ensures { IfOk result (λ who. who ≡ self.now) }
    {
        match self {
            Who::Device(device) => Ok(Who::Device(*device)),
            Who::Name(name) => {
                let name = name.copied(alloc)?;
                Ok(Who::Name(name))
            }
            Who::Address => Ok(Who::Address),
        }
    }
}

// Against a device on record that is known by its instance.
fn whose_device(was: ObjectId, now: &Who) -> Whose
    ensures { result ≡ whose_device was now.now }
{
    match now {
        Who::Device(device) => {
            if was.instance() == device.instance() {
                Whose::Same
            } else {
                Whose::Another
            }
        }
        Who::Name(_) => Whose::Untold,
        Who::Address => Whose::Untold,
    }
}

// By its name.
fn whose_name(was: &[u8], now: &Who) -> Whose
    ensures { result ≡ whose_name was.now now.now }
{
    match now {
        Who::Device(_) => Whose::Now,
        Who::Name(name) => {
            if was == name.octets() {
                Whose::Same
            } else {
                Whose::Another
            }
        }
        Who::Address => Whose::Untold,
    }
}

// By its address alone.
fn whose_address(now: &Who) -> Whose
    ensures { result ≡ whose_address now.now }
{
    match now {
        Who::Device(_) => Whose::Now,
        Who::Name(_) => Whose::Now,
        Who::Address => Whose::Same,
    }
}

/// Whose answers these are, by who answers.
pub fn find_whose(was: &Option<Who>, now: &Who) -> Whose
    ensures { result ≡ whose was.now now.now }
{
    match was {
        None => Whose::New,
        Some(Who::Device(device)) => whose_device(*device, now),
        Some(Who::Name(name)) => whose_name(name.octets(), now),
        Some(Who::Address) => whose_address(now),
    }
}

/// The Device object of whoever answers.
pub fn itself() -> ObjectId
    ensures { result ≡ itself }
{
    match ObjectId::new(DEVICE, ITSELF) {
        Some(object) => object,
        None => unreachable!(),
    }
}

/// The Device object of a device that is known so.
pub fn device_of(who: &Option<Who>) -> ObjectId
    ensures { result ≡ device_of who.now }
{
    match who {
        Some(Who::Device(device)) => *device,
        Some(Who::Name(_)) => itself(),
        Some(Who::Address) => itself(),
        None => itself(),
    }
}

/// A Device object with an instance of its own.
pub(crate) fn own_device(object: Option<ObjectId>) -> Option<ObjectId>
    ensures { result ≡ own_device object }
{
    match object {
        Some(object) => {
            if object.kind() == DEVICE && object.instance() < ITSELF {
                Some(object)
            } else {
                None
            }
        }
        None => None,
    }
}

/// The same of what an answer tells.
pub fn told_device(verdict: Verdict, datagram: &Datagram) -> Option<ObjectId>
    ensures { result ≡ own_device (object_of (told_by verdict datagram.now)) }
{
    own_device(told_object(verdict, datagram))
}
