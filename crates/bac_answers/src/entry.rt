//! What an answer of a device brings, beside the records of a log.

use crate::reject::NoRoute;
use crate::text::Text;
use crate::who::Who;
use bac_walk::WalkFault;
use bac_wire::ObjectId;

/// The clock of a device, beside this machine's.
#[derive(Clone, Copy, Debug, PartialEq, Eq)]
pub enum Offset {
    /// It is so many seconds ahead.
    Ahead(u64),
    /// It is so many behind.
    Behind(u64),
}

/// How many objects a device has whose records aren't kept.
#[derive(Clone, Copy, Debug, PartialEq, Eq)]
pub struct Others {
    /// Trend Log Multiple objects.
    pub multiple: u64,
    /// Event Log objects.
    pub event: u64,
}

/// A property of an object: a BACnetDeviceObjectPropertyReference (clause 21).
#[derive(Clone, Copy, Debug)]
pub struct Reference {
    pub object: ObjectId,
    pub property: u32,
    /// The element of an array.
    pub index: Option<u64>,
    /// The device that has the object, if it is said.
    pub device: Option<ObjectId>,
}

/// What a device tells of a trend log. What it refuses isn't told, and stays as it is on record.
#[derive(Debug, Drop)]
pub struct Naming {
    /// Its Object_Name.
    pub name: Option<Text>,
    /// Its Log_DeviceObjectProperty: what it logs.
    pub source: Option<Reference>,
    /// The Units of that (BACnetEngineeringUnits), where that is in the same device.
    pub units: Option<u32>,
    /// Its Description, or that of the log.
    pub description: Option<Text>,
}

/// What is put on record, or told, of a device.
#[derive(Debug, Drop)]
pub enum Entry {
    /// It is new, and known by this from now on.
    Known(Who),
    /// It is known by this from now on, since it tells more of itself than before.
    KnownNow(Who),
    /// Another device answers: nothing of it is kept.
    Another(Who),
    /// It no longer tells what it is known by: nothing of it is kept.
    Untold,
    /// The router that it is behind has no route to its network.
    Rejected(NoRoute),
    /// Its clock beside this machine's; none: it doesn't tell it.
    Clock(Option<Offset>),
    /// This trend log of its Object_List is new.
    Added(ObjectId),
    /// It didn't tell its Object_List, for this reason.
    Unlisted(WalkFault),
    /// It has so many objects whose records aren't kept.
    Others(Others),
    /// What this log of it is.
    Named(ObjectId, Naming),
    /// Its list and what its logs are were read at this Database_Revision.
    Read(u32),
    /// This log of it isn't asked in this run.
    NotAsked(ObjectId),
}
