//! What the next answer is for.

use bac_wire::{Date4, ObjectId};

/// What the next answer is for.
#[derive(Clone, Copy, Debug, PartialEq, Eq)]
pub enum Stage {
    /// Object_Identifier of the device, whichever instance it has.
    Instance,
    /// An I-Am, since it refused that.
    IAm,
    /// Its Object_Name, since it sent none.
    Name,
    /// Its Time_Of_Device_Restart.
    Restart,
    /// Its Database_Revision.
    Revision,
    /// Its Local_Date.
    Date,
    /// Its Local_Time, of this Local_Date.
    Time(Date4),
    /// Its Object_List, whole.
    Objects,
    /// How many elements that has, since it is too long for one answer.
    Count,
    /// An element, of so many.
    Element(u32, u32),
    /// The Object_Name of a log.
    LogName(ObjectId),
    /// Its Log_DeviceObjectProperty.
    Source(ObjectId),
    /// The Units of what it logs.
    Units(ObjectId),
    /// The Description of that.
    Description(ObjectId),
    /// What the poll of a log asks.
    Log,
    /// The poll of a log has ended: nothing is asked before the next one is begun.
    Between,
    /// Nothing is asked any more.
    Ended,
}
