//! The line of a device.

use bac_device::{DeviceLine, Name};
use bac_wire::Stamp;
use std::alloc::Global;

pub(crate) fn name(alloc: Global, text: &str) -> Option<Name> {
    Some(Name::of(String::from_str(alloc, text).ok()?))
}

/// A device at 2024-05-06, a Monday, 07:08:09.10.
pub(crate) fn plant(
    alloc: Global,
    instance: u32,
    text: &str,
    reply_size: u16,
) -> Option<DeviceLine> {
    let clock = Stamp::new(2024, 5, 6, 7, 8, 9, 10)?;
    Some(DeviceLine {
        instance,
        name: name(alloc, text)?,
        vendor: 0,
        reply_size,
        clock,
    })
}
