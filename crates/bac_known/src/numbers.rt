//! Numbers of records, and records that come together.

ghost use Rattle.std.specs.Prelude.{◌≡◌, ◌<◌, ◌==◌, length};
ghost use Rattle.bac_link.specs.Ordinals.{distance, is_ahead, number_after};
ghost use Rattle.bac_known.specs.Numbers.{before_last, first_in, first_number, last_in};
ghost use Rattle.bac_known.specs.Numbers.{number_before, number_or};

use bac_walk::Numbered;

/// Whether there are no records.
pub fn is_none(records: &Vec<Numbered>) -> bool
    ensures { result ≡ (length records.now.items == 0) }
{
    records.len() == 0
}

/// Whether there is one.
pub fn is_one(records: &Vec<Numbered>) -> bool
    ensures { result ≡ (length records.now.items == 1) }
{
    records.len() == 1
}

/// The first of these records, if there is one.
pub fn first_in(records: &Vec<Numbered>) -> Option<Numbered>
    ensures { result ≡ first_in records.now.items }
{
    records.as_slice().first().copied()
}

/// The last of them.
pub fn last_in(records: &Vec<Numbered>) -> Option<Numbered>
    ensures { result ≡ last_in records.now.items }
{
    records.as_slice().last().copied()
}

/// The record so many before the last of them, if there is one.
pub fn before_last(records: &Vec<Numbered>, back: usize) -> Option<Numbered>
    ensures { result ≡ before_last records.now.items back }
{
    let records = records.as_slice();
    if back < records.len() {
        records.get(records.len() - 1 - back).copied()
    } else {
        None
    }
}

/// The number of a record, or that one if there is none.
pub fn number_or(number: u32, held: Option<Numbered>) -> u32
    ensures { result ≡ number_or number held }
{
    match held {
        Some(held) => held.number,
        None => number,
    }
}

/// The number of the first of them; 0 if there is none.
pub fn first_number(records: &Vec<Numbered>) -> u32
    ensures { result ≡ first_number records.now.items }
{
    number_or(0, first_in(records))
}

/// The number behind this one: 1 behind the last that there is.
pub fn number_behind(number: u32) -> u32
    ensures { result ≡ number_after number 1 }
{
    if number == 4294967295 { 1 } else { number + 1 }
}

/// The number before this one: the last that there is before 1.
pub fn number_before(number: u32) -> u32
    ensures { result ≡ number_before number }
{
    if number == 1 {
        4294967295
    } else {
        number.saturating_sub(1)
    }
}

/// How many numbers lie from one up to another, round the count.
pub fn distance(first: u32, before: u32) -> u64
    ensures value { result ≡ distance first before }
    ensures bound { result < 4294967296 }
{
    (u64::from(before) + 4294967295 - u64::from(first)) % 4294967295
}

/// Whether a number is another one or lies behind it: half of the numbers do.
pub fn is_ahead(number: u32, held: u32) -> bool
    ensures { result ≡ is_ahead number held }
{
    (u64::from(held) + 4294967295 - u64::from(number)) % 4294967295 < 2147483648
}
