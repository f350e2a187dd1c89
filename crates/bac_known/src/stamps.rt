//! Dates and times as rows and devices write them.

ghost use Rattle.std.specs.Prelude.{◌≡◌, ℕ, ◌<◌, ◌∷◌, ◌++◌, List, Some};
ghost use Rattle.std.specs.List.{slice_index};
ghost use Rattle.bac_print.specs.Moments.{part_text, year_text};
ghost use Rattle.bac_known.specs.Stamps.{IsDateBack, IsPartRead, IsReadBack, IsSeparator};
ghost use Rattle.bac_known.specs.Stamps.{IsTimeBack, date_time_in, is_date_time, stamped};

use crate::date_time::{DateTime, UNKNOWN};
use bac_wire::{Date4, Time4};

impl DateTime {
    /// The date and time of a row, from its text: `YYYY-MM-DDTHH:MM:SS.hh`, a star for a part that
    /// is unspecified.
    pub fn read(text: &str) -> Option<DateTime>
        ensures { IsReadBack text.now result }
    {
        let (date, time) = text.split_once('T')?;
        Some(DateTime {
            date: read_date(date)?,
            time: read_time(time)?,
        })
    }

    /// The date and time of a time stamp (BACnetTimeStamp, clause 21), from its octets; unknown, if
    /// it is of another choice.
    pub fn stamped(values: &[u8]) -> DateTime
        ensures { result ≡ stamped values.now }
    {
        if is_date_time(values) {
            date_time_in(values)
        } else {
            DateTime::unknown()
        }
    }
}

// A date, from `YYYY-MM-DD`.
fn read_date(text: &str) -> Option<Date4>
    ensures { IsDateBack text.now result }
{
    let (digits, rest) = text.split_once('-')?;
    let year = read_year(digits)?;
    let (month, day) = part_before(rest, '-')?;
    Some(Date4 {
        year,
        month,
        day: read_part(day)?,
        weekday: UNKNOWN,
    })
}

// A time, from `HH:MM:SS.hh`.
fn read_time(text: &str) -> Option<Time4>
    ensures { IsTimeBack text.now result }
{
    let (hour, rest) = part_before(text, ':')?;
    let (minute, rest) = part_before(rest, ':')?;
    let (second, rest) = part_before(rest, '.')?;
    Some(Time4 {
        hour,
        minute,
        second,
        hundredth: read_part(rest)?,
    })
}

// A part up to a separator, and what lies behind that.
fn part_before(text: &str, separator: char) -> Option<(u8, &str)>
    requires { IsSeparator separator }
    ensures { (n : ℕ) → (rest : List ℕ) → n < 256 → text.now ≡ part_text n ++ (separator ∷ rest)
        → IsPartRead result n rest }
{
    let (part, rest) = text.split_once(separator)?;
    Some((read_part(part)?, rest))
}

// A year.
fn read_year(text: &str) -> Option<u8>
    ensures { (n : ℕ) → n < 256 → text.now ≡ year_text n → result ≡ Some n }
{
    if text == "*" {
        return Some(UNKNOWN);
    }
    match text.parse::<u16>() {
        Ok(year) => {
            if year < 1900 || 2154 < year {
                return None;
            }
            Some((year - 1900) as u8)
        }
        Err(_) => None,
    }
}

// Another part.
fn read_part(text: &str) -> Option<u8>
    ensures { (n : ℕ) → n < 256 → text.now ≡ part_text n → result ≡ Some n }
{
    if text == "*" {
        return Some(UNKNOWN);
    }
    match text.parse::<u8>() {
        Ok(part) => Some(part),
        Err(_) => None,
    }
}

// An octet; 0 if there is none.
fn octet(values: &[u8], place: usize) -> u8
    ensures { result ≡ slice_index values.now place }
{
    match values.get(place) {
        Some(octet) => *octet,
        None => 0,
    }
}

// Whether octets are a time stamp of the choice dateTime.
fn is_date_time(values: &[u8]) -> bool
    ensures { result ≡ is_date_time values.now }
{
    values.len() == 12
        && octet(values, 0) == 0x2e
        && octet(values, 1) == 0xa4
        && octet(values, 6) == 0xb4
        && octet(values, 11) == 0x2f
}

// Its date and time.
fn date_time_in(values: &[u8]) -> DateTime
    ensures { result ≡ date_time_in values.now }
{
    let date = Date4 {
        year: octet(values, 2),
        month: octet(values, 3),
        day: octet(values, 4),
        weekday: octet(values, 5),
    };
    let time = Time4 {
        hour: octet(values, 7),
        minute: octet(values, 8),
        second: octet(values, 9),
        hundredth: octet(values, 10),
    };
    DateTime { date, time }
}
