//! Object identifiers, dates and times.

use crate::fault::Fault;
use crate::text::{moment, none, shown};
use crate::words::{number, pair};
use bac_wire::{Date4, ObjectId, Stamp, Time4, stamp_order};
use jiff_core::civil::{Date, DateTime, Time};
use std::alloc::Global;
use std::str::SplitWhitespace;

pub(crate) fn answer(
    alloc: Global,
    call: &str,
    words: &mut SplitWhitespace,
) -> Option<Result<String, Fault>> {
    Some(match call {
        "object_id" => object(alloc, words),
        "stamp" => told(alloc, stamp(words)),
        "civil" => told(alloc, civil(words)),
        "stamps_compared" => compared(alloc, words),
        "stamp_order" => ordered(alloc, words),
        _ => return None,
    })
}

fn object(alloc: Global, words: &mut SplitWhitespace) -> Result<String, Fault> {
    let (kind, instance) = (number::<u16>(words)?, number::<u32>(words)?);
    match ObjectId::new(kind, instance) {
        Some(object) => {
            Ok(format!(in alloc; "type {} instance {}", object.kind(), object.instance())?)
        }
        None => none(alloc),
    }
}

/// Year, month, day, hour, minute, second, hundredth.
fn stamp(words: &mut SplitWhitespace) -> Result<Option<Stamp>, Fault> {
    let year = number::<u16>(words)?;
    let (month, day) = pair::<u8>(words)?;
    let time = time_of(words)?;
    Ok(Stamp::new(
        year,
        month,
        day,
        time.hour,
        time.minute,
        time.second,
        time.hundredth,
    ))
}

fn time_of(words: &mut SplitWhitespace) -> Result<Time4, Fault> {
    let (hour, minute) = pair::<u8>(words)?;
    let (second, hundredth) = pair::<u8>(words)?;
    Ok(Time4 {
        hour,
        minute,
        second,
        hundredth,
    })
}

fn date_of(words: &mut SplitWhitespace) -> Result<Date4, Fault> {
    let (year, month) = pair::<u8>(words)?;
    let (day, weekday) = pair::<u8>(words)?;
    Ok(Date4 {
        year,
        month,
        day,
        weekday,
    })
}

/// Four octets of a date and four of a time, in decimal digits.
pub(crate) fn date_and_time(words: &mut SplitWhitespace) -> Result<(Date4, Time4), Fault> {
    Ok((date_of(words)?, time_of(words)?))
}

/// Year, month, day, hour, minute, second, nanosecond.
fn civil(words: &mut SplitWhitespace) -> Result<Option<Stamp>, Fault> {
    let (year, month, day) = (
        number::<i16>(words)?,
        number::<i8>(words)?,
        number::<i8>(words)?,
    );
    let (hour, minute, second) = (
        number::<i8>(words)?,
        number::<i8>(words)?,
        number::<i8>(words)?,
    );
    let nanosecond = number::<i32>(words)?;
    let date = Date::new(year, month, day);
    let time = Time::new(hour, minute, second, nanosecond);
    match (date, time) {
        (Ok(date), Ok(time)) => Ok(Stamp::of_civil(DateTime { date, time })),
        _ => Err(Fault::BadLine),
    }
}

/// The stamp that was read, if it is one.
fn told(alloc: Global, stamp: Result<Option<Stamp>, Fault>) -> Result<String, Fault> {
    match stamp? {
        Some(stamp) => stamp_text(alloc, &stamp),
        None => none(alloc),
    }
}

/// Its fields, its date with the weekday and its time, and its ticks.
fn stamp_text(alloc: Global, stamp: &Stamp) -> Result<String, Fault> {
    let fields = fields(alloc, stamp)?;
    let moment = moment(alloc, stamp.date(), stamp.time())?;
    Ok(format!(in alloc; "{fields} = {moment}, tick {}", stamp.ticks())?)
}

fn fields(alloc: Global, stamp: &Stamp) -> Result<String, Fault> {
    Ok(format!(in alloc;
        "{}-{}-{} {}:{}:{}.{}",
        stamp.year(),
        stamp.month(),
        stamp.day(),
        stamp.hour(),
        stamp.minute(),
        stamp.second(),
        stamp.hundredth(),
    )?)
}

/// How two dates and times are ordered.
fn ordered(alloc: Global, words: &mut SplitWhitespace) -> Result<String, Fault> {
    let left = date_and_time(words)?;
    let right = date_and_time(words)?;
    shown(alloc, &stamp_order(&left, &right))
}

/// Whether the left is before the right, and how they compare.
fn compared(alloc: Global, words: &mut SplitWhitespace) -> Result<String, Fault> {
    match (stamp(words)?, stamp(words)?) {
        (Some(left), Some(right)) => {
            Ok(format!(in alloc; "{} {:?}", left.is_before(&right), left.cmp(&right))?)
        }
        _ => Err(Fault::BadLine),
    }
}
