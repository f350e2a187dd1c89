//! Dates and times as values.

ghost use Rattle.std.specs.Prelude.{◌≡◌, ◌+◌, ◌<◌, IfSome, IsTrue, is_some, pos};
ghost use Rattle.jiff_core.specs.Date.{IsYmd};
ghost use Rattle.bac_known.specs.DateTime.{dated, day_of, is_before, is_date, is_moment};
ghost use Rattle.bac_known.specs.DateTime.{is_same_time, is_time, ticks_of, undated};

use bac_log::Entry;
use bac_wire::{Date4, Time4, stamp_order};
use jiff_core::civil::Date;

/// A date and time (BACnetDateTime, clause 21). An octet of 255 says that its part is unspecified;
/// the weekday doesn't count.
#[derive(Clone, Copy, Debug)]
pub struct DateTime {
    pub date: Date4,
    pub time: Time4,
}

/// An octet of 255 says that its part is unspecified.
pub(crate) const UNKNOWN: u8 = 255;

/// The days from 1900-01-01 up to 1970-01-01, from which the calendar counts.
const BEFORE_1970: i32 = 25567;

impl DateTime {
    /// The date and time of a record.
    pub fn of(entry: &Entry) -> DateTime
        ensures { result ≡ dated entry.now }
    {
        DateTime {
            date: entry.date,
            time: entry.time,
        }
    }

    /// One of which no part is known.
    pub fn unknown() -> DateTime
        ensures { result ≡ undated }
    {
        DateTime {
            date: Date4 {
                year: UNKNOWN,
                month: UNKNOWN,
                day: UNKNOWN,
                weekday: UNKNOWN,
            },
            time: Time4 {
                hour: UNKNOWN,
                minute: UNKNOWN,
                second: UNKNOWN,
                hundredth: UNKNOWN,
            },
        }
    }

    /// Whether it is part for part the same.
    pub fn is_same(&self, other: &DateTime) -> bool
        ensures { result ≡ is_same_time self.now other.now }
    {
        stamp_order(&(self.date, self.time), &(other.date, other.time)).is_eq()
    }

    /// Whether it is a moment: each part is known, and the calendar and a clock have it.
    pub fn is_moment(&self) -> bool
        ensures { result ≡ is_moment self.now }
    {
        is_date(self.date) && is_time(self.time)
    }

    /// The hundredths of a second since 1900-01-01.
    pub fn ticks(&self) -> u64
        requires { IsTrue (is_moment self.now) }
        ensures value { result ≡ ticks_of self.now }
        ensures bound { result < 1000000000000000000 }
    {
        let hours = day_of(self.date) * 24 + u64::from(self.time.hour);
        let minutes = hours * 60 + u64::from(self.time.minute);
        let seconds = minutes * 60 + u64::from(self.time.second);
        seconds * 100 + u64::from(self.time.hundredth)
    }

    /// Whether a moment lies before another.
    pub fn is_before(&self, other: &DateTime) -> bool
        ensures { result ≡ is_before self.now other.now }
    {
        self.is_moment() && other.is_moment() && self.ticks() < other.ticks()
    }
}

// The date on the calendar, if it has it.
fn civil(date: Date4) -> Option<Date>
    ensures is_some { is_some result ≡ is_date date }
    ensures value { IfSome result (IsYmd (pos (1900 + date.year)) (pos date.month) (pos date.day)) }
{
    if date.year == UNKNOWN || 12 < date.month || 31 < date.day {
        return None;
    }
    let year = 1900 + i16::from(date.year);
    Date::new(year, date.month as i8, date.day as i8).ok()
}

// Whether the calendar has this date.
fn is_date(date: Date4) -> bool
    ensures { result ≡ is_date date }
{
    civil(date).is_some()
}

// Whether a clock shows this time.
fn is_time(time: Time4) -> bool
    ensures { result ≡ is_time time }
{
    time.hour < 24 && time.minute < 60 && time.second < 60 && time.hundredth < 100
}

// The days since 1900-01-01.
fn day_of(date: Date4) -> u64
    requires { IsTrue (is_date date) }
    ensures value { result ≡ day_of date }
    ensures bound { result < 100000000 }
{
    match civil(date) {
        Some(civil) => u64::from((civil.to_unix_epoch_day() + BEFORE_1970).unsigned_abs()),
        None => unreachable!(),
    }
}
