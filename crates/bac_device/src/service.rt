//! The services that a device answers, one file each.

mod read_property;
mod read_range;
mod who_is;
mod write_property;
