//! Texts of answers.

use crate::fault::Fault;
use bac_wire::{Datagram, Date4, Full, Time4};
use std::alloc::Global;
use std::fmt::Debug;

/// More octets than these are told by the first of them and their number.
const MANY: usize = 100;

pub(crate) fn shown<T: Debug>(alloc: Global, value: &T) -> Result<String, Fault> {
    Ok(format!(in alloc; "{value:?}")?)
}

pub(crate) fn none(alloc: Global) -> Result<String, Fault> {
    Ok(format!(in alloc; "None")?)
}

/// Octets in hexadecimal digits, or `-` for none.
pub(crate) fn digits(alloc: Global, octets: &[u8]) -> Result<String, Fault> {
    let len = octets.len();
    if len == 0 {
        return Ok(format!(in alloc; "-")?);
    }
    if len <= MANY {
        return Ok(hex::encode(alloc, octets)?);
    }
    let front = hex::encode(alloc, &octets[..20])?;
    Ok(format!(in alloc; "{front}.. {len} octets")?)
}

/// What was written, or that it doesn't fit.
pub(crate) fn written(
    alloc: Global,
    done: Result<(), Full>,
    out: &Datagram,
) -> Result<String, Fault> {
    match done {
        Ok(()) => digits(alloc, out.octets()),
        Err(Full) => shown(alloc, &Full),
    }
}

/// Year after 1900, month, day and weekday; hour, minute, second and hundredth.
pub(crate) fn moment(alloc: Global, date: Date4, time: Time4) -> Result<String, Fault> {
    Ok(format!(in alloc;
        "{}-{}-{}-{} {}:{}:{}.{}",
        date.year,
        date.month,
        date.day,
        date.weekday,
        time.hour,
        time.minute,
        time.second,
        time.hundredth,
    )?)
}
