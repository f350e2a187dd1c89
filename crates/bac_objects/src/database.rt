//! A device's objects.

ghost use Rattle.std.specs.Prelude.{◌≡◌, ◌≤◌, ◌<◌, [], IfOk};
ghost use Rattle.std.specs.Map.{lookup};
ghost use Rattle.std.specs.Option.{option_copied};
ghost use Rattle.bac_objects.specs.Build.{built, device_fault};
ghost use Rattle.bac_objects.specs.Properties.{device_id, is_here};
ghost use Rattle.bac_objects.specs.Kept.{AreObjects};
ghost use Rattle.bac_objects.specs.Sound.{IsSound};
ghost use Rattle.bac_objects.specs.State.{is_id};
ghost use Rattle.bac_objects.specs.Writing.{is_device};

use crate::lines::DeviceLine;
use crate::name::Name;
use crate::object::Object;
use bac_wire::{ObjectId, Stamp};
use indexmap::IndexMap;
use std::alloc::{AllocError, Global};
use std::marker::Model;

/// The type of a device's object (clause 21, BACnetObjectType).
pub(crate) const DEVICE: u16 = 8;

/// The instance that stands for the device that is asked (clause 15.5.2).
const ANY_INSTANCE: u32 = 4_194_303;

/// The objects of a device and what it says of itself, which contracts see as its state.
#[derive(Drop)]
pub struct Database {
    pub(crate) instance: u32,
    pub(crate) name: Name,
    pub(crate) vendor: u16,
    pub(crate) reply_size: u16,
    /// Where the clock began.
    pub(crate) origin: Stamp,
    pub(crate) clock: Stamp,
    /// In hundredths of a second: no log is due before it, as long as the clock goes on.
    pub(crate) due: u64,
    pub(crate) objects: IndexMap<ObjectId, Object>,
}

impl Model for Database {
    ghost use Rattle.bac_wire.specs.Stamp.{ticks_of};
    ghost use Rattle.bac_objects.specs.Kept.{AreObjects, AreQuiet};
    ghost use Rattle.bac_objects.specs.Sound.{IsSound};
    ghost use Rattle.bac_objects.specs.State.{State};

    ghost Value = { State };

    ghost view = { λ d. record {
      instance = d.instance;
      name = d.name;
      vendor = d.vendor;
      reply_size = d.reply_size;
      origin = d.origin;
      clock = d.clock;
      objects = d.objects.entries;
    } };

    ghost invariant = { λ d. IsSound (record {
      instance = d.instance;
      name = d.name;
      vendor = d.vendor;
      reply_size = d.reply_size;
      origin = d.origin;
      clock = d.clock;
      objects = d.objects.entries;
    }) × AreObjects d.objects.entries
        × AreQuiet (ticks_of d.origin) (ticks_of d.clock) d.due d.objects.entries };
}

impl Database {
    /// The device of a line that has no fault, with these objects.
    pub(crate) fn of(
        alloc: Global,
        line: &DeviceLine,
        objects: IndexMap<ObjectId, Object>,
    ) -> Result<Database, AllocError>
        requires line { device_fault line.now ≡ None }
        requires objects { AreObjects objects.entries }
        ensures ok { IfOk result
            (λ device. device ≡ record (built line.now []) { objects = objects.entries }) }
        ensures sound { IfOk result IsSound }
    {
        Ok(Database {
            instance: line.instance,
            name: line.name.copy(alloc)?,
            vendor: line.vendor,
            reply_size: line.reply_size,
            origin: line.clock,
            clock: line.clock,
            due: line.clock.ticks(),
            objects,
        })
    }

    /// The device's own instance number.
    pub fn instance(&self) -> u32
        ensures value { result ≡ self.now.instance }
        ensures bound { result ≤ 4194302 }
    {
        self.instance
    }

    /// The number of the device's vendor.
    pub fn vendor(&self) -> u16
        ensures { result ≡ self.now.vendor }
    {
        self.vendor
    }

    /// The greatest number of octets of an APDU that the device takes and sends.
    pub fn reply_size(&self) -> u16
        ensures value { result ≡ self.now.reply_size }
        ensures bounds { (50 ≤ result) × (result ≤ 1476) }
    {
        self.reply_size
    }

    /// What the device's clock shows.
    pub fn clock(&self) -> Stamp
        ensures value { result ≡ self.now.clock }
        ensures sound { IsSound self.now }
    {
        self.clock
    }

    /// The device's own identifier.
    pub fn id(&self) -> ObjectId
        ensures { result ≡ device_id self.now }
    {
        match ObjectId::new(DEVICE, self.instance) {
            Some(id) => id,
            None => unreachable!(),
        }
    }

    /// The object with an identifier, but for the device's own.
    pub(crate) fn object(&self, id: ObjectId) -> Option<&Object>
        ensures { option_copied result ≡ lookup (is_id id) self.now.objects }
    {
        self.objects.get(&id)
    }

    /// Whether an identifier is this device's.
    pub(crate) fn is_device(&self, id: ObjectId) -> bool
        ensures { result ≡ is_device self.now id }
    {
        id.kind() == DEVICE && id.instance() == self.instance
    }

    /// Whether an identifier is this device's, or that of whichever device is asked.
    pub fn is_here(&self, id: ObjectId) -> bool
        ensures { result ≡ is_here self.now id }
    {
        id.kind() == DEVICE && (id.instance() == self.instance || id.instance() == ANY_INSTANCE)
    }
}
