//! The lines that a device is built of.

ghost use Rattle.std.specs.Prelude.{◌≡◌, ◌<◌};
ghost use Rattle.bac_objects.specs.Build.{instance_of, kind_of, name_of};

use crate::name::Name;
use bac_wire::{ObjectId, Stamp};

/// What is said of a device itself.
#[derive(Debug, Drop)]
pub struct DeviceLine {
    /// The device's instance number.
    pub instance: u32,
    pub name: Name,
    /// The number of its vendor.
    pub vendor: u16,
    /// The greatest number of octets of an APDU that it takes and sends.
    pub reply_size: u16,
    /// Where its clock begins.
    pub clock: Stamp,
}

/// A line that describes the device or one of its objects, by type (clause 21, BACnetObjectType; 8
/// is the device) and instance as written.
#[derive(Clone, Copy, Debug, PartialEq, Eq)]
pub struct LineId {
    pub object_type: u16,
    pub instance: u32,
}

/// What is said of an object.
#[derive(Debug, Drop)]
pub enum ObjectLine {
    /// A Binary Value.
    Binary {
        instance: u32,
        name: Name,
        /// What its Present_Value is without a command, 0 or 1.
        default: u32,
    },
    /// A Multi-state Value.
    Multistate {
        instance: u32,
        name: Name,
        /// How many states there are.
        states: u32,
        /// What its Present_Value is without a command, 1 to the number of states.
        default: u32,
    },
    /// An Integer Value.
    Integer {
        instance: u32,
        name: Name,
        /// What its Present_Value is without a command.
        default: i32,
    },
    /// A Trend Log.
    Log {
        instance: u32,
        name: Name,
        /// The object whose Present_Value is sampled, which need not be there.
        source: ObjectId,
        /// The most records that are held, 1 to 65535.
        capacity: u32,
        /// Hundredths of a second between two samples, at least 100; 0 for samples on demand alone.
        interval: u32,
        /// How many records were logged before.
        logged: u32,
    },
}

impl ObjectLine {
    /// The number of the object's type (clause 21, BACnetObjectType).
    pub(crate) fn kind(&self) -> u16
        ensures value { result ≡ kind_of self.now }
        ensures bound { result < 1024 }
    {
        match self {
            ObjectLine::Binary { .. } => 5,
            ObjectLine::Multistate { .. } => 19,
            ObjectLine::Integer { .. } => 45,
            ObjectLine::Log { .. } => 20,
        }
    }

    /// The object's instance number.
    pub(crate) fn instance(&self) -> u32
        ensures { result ≡ instance_of self.now }
    {
        match self {
            ObjectLine::Binary { instance, .. } => *instance,
            ObjectLine::Multistate { instance, .. } => *instance,
            ObjectLine::Integer { instance, .. } => *instance,
            ObjectLine::Log { instance, .. } => *instance,
        }
    }

    /// The object's name.
    pub(crate) fn name(&self) -> &Name
        ensures { result.now ≡ name_of self.now }
    {
        match self {
            ObjectLine::Binary { name, .. } => name,
            ObjectLine::Multistate { name, .. } => name,
            ObjectLine::Integer { name, .. } => name,
            ObjectLine::Log { name, .. } => name,
        }
    }
}
