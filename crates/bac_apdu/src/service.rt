//! The services (clauses 15 and 16), one file each: the fields of its parameters, how they are read
//! and how they are written.

pub mod choice;
mod extent;
mod i_am;
pub mod object_type;
pub mod property_id;
mod property_reference;
mod read_property;
mod read_property_ack;
mod read_range;
mod read_range_ack;
mod who_is;
mod write_property;

pub use extent::Extent;
pub use i_am::IAm;
pub use read_property::ReadProperty;
pub use read_property_ack::ReadPropertyAck;
pub use read_range::ReadRange;
pub use read_range_ack::ReadRangeAck;
pub use who_is::WhoIs;
pub use write_property::WriteProperty;
