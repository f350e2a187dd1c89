//! Whether an hour is the one before another.

ghost use Rattle.std.specs.Prelude.{◌≡◌, ◌<◌, IfSome, slice_index};
ghost use Rattle.bac_kept.specs.Hours.{hour_of, is_next_hour, is_of_day, is_of_day_after};
ghost use Rattle.bac_kept.specs.Hours.{is_right_after, pair_at};

use jiff_core::civil::days_in_month;

/// An hour of a day, by its digits: the calendar may not have it.
#[derive(Clone, Copy)]
struct Hour {
    year: u16,
    month: u8,
    day: u8,
    hour: u8,
}

/// The last hour of a day.
const LAST: u8 = 23;

/// The octet of a text at a place, or 0.
fn octet_at(text: &str, place: usize) -> u8
    ensures { result ≡ slice_index text.now place }
{
    match text.as_bytes().get(place) {
        Some(octet) => *octet,
        None => 0,
    }
}

/// The number that two digits say, if they stand at this place of a text.
fn pair_at(text: &str, place: usize) -> Option<u8>
    requires { place < 12 }
    ensures value { result ≡ pair_at text.now place }
    ensures bound { IfSome result (λ n. n < 100) }
{
    let (tens, ones) = (octet_at(text, place), octet_at(text, place + 1));
    if tens.is_ascii_digit() && ones.is_ascii_digit() {
        return Some(10 * (tens - b'0') + (ones - b'0'));
    }
    None
}

/// The hour in which a moment lies, by its text.
#[tactic(auto, unfolding(crate::specs::Hours::hour_of))]
fn hour_of(moment: &str) -> Option<Hour>
    ensures value { result ≡ hour_of moment.now }
    ensures year { IfSome result (λ h. h.year < 10000) }
    ensures hour { IfSome result (λ h. h.hour < 100) }
{
    let century = pair_at(moment, 0)?;
    let year = pair_at(moment, 2)?;
    Some(Hour {
        year: 100 * u16::from(century) + u16::from(year),
        month: pair_at(moment, 5)?,
        day: pair_at(moment, 8)?,
        hour: pair_at(moment, 11)?,
    })
}

impl Hour {
    /// Whether it is one of this day.
    fn is_of_day(self, year: u16, month: u8, day: u8) -> bool
        ensures { result ≡ is_of_day self year month day }
    {
        self.year == year && self.month == month && self.day == day
    }

    /// Whether it is one of the day after another's.
    fn is_of_day_after(self, hour: Hour) -> bool
        requires { hour.year < 10000 }
        ensures { result ≡ is_of_day_after self hour }
    {
        let Hour {
            year,
            month,
            day,
            ..
        } = hour;
        if day < days_in_month(year as i16, month) {
            return self.is_of_day(year, month, day + 1);
        }
        if month < 12 {
            return self.is_of_day(year, month + 1, 1);
        }
        self.is_of_day(year + 1, 1, 1)
    }

    /// Whether it comes right after another.
    fn is_right_after(self, hour: Hour) -> bool
        requires year { hour.year < 10000 }
        requires hour { hour.hour < 100 }
        ensures { result ≡ is_right_after self hour }
    {
        if hour.hour == LAST {
            return self.is_of_day_after(hour) && self.hour == 0;
        }
        self.is_of_day(hour.year, hour.month, hour.day) && self.hour == hour.hour + 1
    }
}

/// Whether a moment's hour is the one before another's.
pub(crate) fn is_next_hour(moment: &str, other: &str) -> bool
    ensures { result ≡ is_next_hour moment.now other.now }
{
    match (hour_of(other), hour_of(moment)) {
        (Some(next), Some(hour)) => next.is_right_after(hour),
        _ => false,
    }
}
