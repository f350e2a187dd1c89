//! Dates and times (clauses 20.2.12 and 20.2.13).

ghost use Rattle.std.specs.Prelude.{◌≡◌, ◌<◌, ◌+◌, ◌/◌, ◌%◌, ◌∷◌, [], ◌++◌, OnOk, decimal};
ghost use Rattle.bac_wire.specs.Stamp.{date_octets, time_octets};
ghost use Rattle.bac_print.specs.Moments.{date_text, day_text, part_text, time_text, weekday_text};
ghost use Rattle.bac_print.specs.Moments.{year_text};

use crate::numbers::{push_number, push_two_digits};
use bac_wire::{Date4, Time4};
use std::alloc::AllocError;

/// An octet of 255 says that its part of a date or time is unspecified.
const UNSPECIFIED: u8 = 255;

/// Appends a year.
fn push_year(text: &mut Vec<u8>, year: u8) -> Result<(), AllocError>
    ensures { OnOk result (text.new.items ≡ text.old.items ++ year_text year) }
{
    if year == UNSPECIFIED {
        return text.extend_from_slice(b"*");
    }
    push_number(text, 1900 + u64::from(year))
}

/// Appends a month, a day, or a part of a time.
fn push_part(text: &mut Vec<u8>, part: u8) -> Result<(), AllocError>
    ensures { OnOk result (text.new.items ≡ text.old.items ++ part_text part) }
{
    if part == UNSPECIFIED {
        return text.extend_from_slice(b"*");
    }
    push_two_digits(text, part)
}

/// Appends the number of a weekday.
fn push_weekday(text: &mut Vec<u8>, weekday: u8) -> Result<(), AllocError>
    ensures { OnOk result (text.new.items ≡ text.old.items ++ weekday_text weekday) }
{
    if weekday == UNSPECIFIED {
        return text.extend_from_slice(b"*");
    }
    push_number(text, u64::from(weekday))
}

/// Appends `YYYY-MM-DD`.
#[tactic(auto, unfolding(crate::specs::Moments::day_text))]
pub(crate) fn push_day(text: &mut Vec<u8>, date: Date4) -> Result<(), AllocError>
    ensures { OnOk result (text.new.items ≡ text.old.items ++ day_text (date_octets date)) }
{
    push_year(text, date.year)?;
    text.extend_from_slice(b"-")?;
    push_part(text, date.month)?;
    text.extend_from_slice(b"-")?;
    push_part(text, date.day)
}

/// Appends `YYYY-MM-DD,W`.
#[tactic(auto, unfolding(crate::specs::Moments::date_text))]
pub(crate) fn push_date(text: &mut Vec<u8>, date: Date4) -> Result<(), AllocError>
    ensures { OnOk result (text.new.items ≡ text.old.items ++ date_text (date_octets date)) }
{
    push_day(text, date)?;
    text.extend_from_slice(b",")?;
    push_weekday(text, date.weekday)
}

/// Appends `HH:MM:SS.hh`.
#[tactic(auto, unfolding(crate::specs::Moments::time_text))]
pub(crate) fn push_time(text: &mut Vec<u8>, time: Time4) -> Result<(), AllocError>
    ensures { OnOk result (text.new.items ≡ text.old.items ++ time_text (time_octets time)) }
{
    push_part(text, time.hour)?;
    text.extend_from_slice(b":")?;
    push_part(text, time.minute)?;
    text.extend_from_slice(b":")?;
    push_part(text, time.second)?;
    text.extend_from_slice(b".")?;
    push_part(text, time.hundredth)
}

/// Appends `YYYY-MM-DDTHH:MM:SS.hh`.
pub fn push_moment(text: &mut Vec<u8>, date: Date4, time: Time4) -> Result<(), AllocError>
    ensures { OnOk result (text.new.items ≡ text.old.items
        ++ (day_text (date_octets date) ++ (84 ∷ time_text (time_octets time)))) }
{
    push_day(text, date)?;
    text.extend_from_slice(b"T")?;
    push_time(text, time)
}

/// The two digits of each number below 100.
static PAIRS: [u8; 200] =
    *b"00010203040506070809101112131415161718192021222324252627282930313233343536373839\
        40414243444546474849505152535455565758596061626364656667686970717273747576777879\
        8081828384858687888990919293949596979899";

/// The two digits of a number below 100.
#[inline(always)]
fn pair(n: u8) -> [u8; 2]
    requires { n < 100 }
    ensures { result ≡ (48 + n / 10) ∷ (48 + n % 10) ∷ [] }
{
    let first = n as usize * 2;
    let (tens, ones) = (PAIRS[first], PAIRS[first + 1]);
    [tens, ones]
}

/// How many digits the longest sequence number has.
const MOST_DIGITS: usize = 10;

/// Appends a number, a blank, `YYYY-MM-DDTHH:MM:SS.hh` and a blank at once, if the parts have no
/// star and two digits each.
fn push_plain_head(
    text: &mut Vec<u8>,
    number: u32,
    date: Date4,
    time: Time4,
) -> Result<(), AllocError>
    requires year { date.year < 255 }
    requires month { date.month < 100 }
    requires day { date.day < 100 }
    requires hour { time.hour < 100 }
    requires minute { time.minute < 100 }
    requires second { time.second < 100 }
    requires hundredth { time.hundredth < 100 }
    ensures { OnOk result (text.new.items ≡ text.old.items
        ++ (decimal number ++ (32 ∷ (day_text (date_octets date)
        ++ (84 ∷ (time_text (time_octets time) ++ 32 ∷ [])))))) }
{
    let year = 1900 + date.year as u16;
    let century = pair((year / 100) as u8);
    let years = pair((year % 100) as u8);
    let month = pair(date.month);
    let day = pair(date.day);
    let hour = pair(time.hour);
    let minute = pair(time.minute);
    let second = pair(time.second);
    let centi = pair(time.hundredth);
    let mut head = [
        0, 0, 0, 0, 0, 0, 0, 0, 0, 0, b' ', century[0], century[1], years[0], years[1], b'-',
        month[0], month[1], b'-', day[0], day[1], b'T', hour[0], hour[1], b':', minute[0],
        minute[1], b':', second[0], second[1], b'.', centi[0], centi[1], b' ',
    ];
    let start = itoa::write_digits(number as u64, &mut head, MOST_DIGITS);
    text.extend_from_slice(&head[start..])
}

/// Appends a number, a blank, `YYYY-MM-DDTHH:MM:SS.hh` and a blank.
pub(crate) fn push_head(
    text: &mut Vec<u8>,
    number: u32,
    date: Date4,
    time: Time4,
) -> Result<(), AllocError>
    ensures { OnOk result (text.new.items ≡ text.old.items
        ++ (decimal number ++ (32 ∷ (day_text (date_octets date)
        ++ (84 ∷ (time_text (time_octets time) ++ 32 ∷ [])))))) }
{
    if date.year < UNSPECIFIED && date.month < 100 && date.day < 100 {
        if time.hour < 100 && time.minute < 100 && time.second < 100 && time.hundredth < 100 {
            return push_plain_head(text, number, date, time);
        }
    }
    push_number(text, u64::from(number))?;
    text.extend_from_slice(b" ")?;
    push_moment(text, date, time)?;
    text.extend_from_slice(b" ")
}
