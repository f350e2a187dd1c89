//! Where a log stands by the items of its last epoch.

ghost use Rattle.std.specs.Prelude.{◌≡◌, map, IfOk};
ghost use Rattle.std.specs.Option.{option_map};
ghost use Rattle.sqlite_value.specs.declared.value.Value.TheVariants.{Text};
ghost use Rattle.sqlite.specs.Values.{or_null};
ghost use Rattle.bac_archive.specs.Items.{number_in, text_at};
ghost use Rattle.bac_archive.specs.Put.{item_columns};
ghost use Rattle.bac_link.specs.Ordinals.{number_after};
ghost use Rattle.bac_poll.specs.State.{kept_as, maybe_kept};
ghost use Rattle.bac_poll.specs.Turns.{number_before};
ghost use Rattle.bac_resume.specs.Resumed.{Agree, IsKept};
ghost use Rattle.bac_resume.specs.Stands.{is_full, is_record_of, known_at, last_number};
ghost use Rattle.bac_resume.specs.Stands.{newest_record, next_of};
ghost use Rattle.bac_resume.specs.Texts.{HasDate};

use crate::rows::id_of;
use crate::texts::date_of;
use bac_archive::ItemRow;
use bac_poll::{DateTime, Kept};
use std::alloc::{AllocError, Global};

/// How many numbers an epoch has.
const NUMBERS: u64 = 4_294_967_296;

/// The last number that there is.
const LAST: u32 = 4_294_967_295;

// The number of an item.
fn number_of(item: &ItemRow) -> u32
    ensures { result ≡ number_in (item_columns item.now) }
{
    (id_of(item) % NUMBERS) as u32
}

// Its last number.
fn last_number(item: &ItemRow) -> u32
    ensures { result ≡ last_number (item_columns item.now) }
{
    match item.last {
        Some(last) => last,
        None => number_of(item),
    }
}

// The number behind this one: 1 behind the last that there is.
fn number_behind(number: u32) -> u32
    ensures { result ≡ number_after number 1 }
{
    if number == LAST { 1 } else { number + 1 }
}

// The number before this one: the last that there is before 1.
fn number_before(number: u32) -> u32
    ensures { result ≡ number_before number }
{
    if number == 1 {
        LAST
    } else {
        number.saturating_sub(1)
    }
}

/// Whether the last number of the epoch of these items is kept.
pub fn is_full(items: &[ItemRow]) -> bool
    ensures { result ≡ is_full (map item_columns items.now) }
{
    match items {
        [newest, ..] => last_number(newest) == LAST,
        [] => false,
    }
}

/// The number that comes next, where the epoch begins with this one.
pub fn next_of(begins: u32, items: &[ItemRow]) -> u32
    ensures { result ≡ next_of begins (map item_columns items.now) }
{
    match items {
        [newest, ..] => number_behind(last_number(newest)),
        [] => begins,
    }
}

// Whether an item is the record of a number.
fn is_record_of(number: u32, item: &ItemRow) -> bool
    ensures { result ≡ is_record_of number (item_columns item.now) }
{
    item.last.is_none() && number_of(item) == number
}

// The one so many places back of the records right before a number.
fn known_at(next: u32, items: &[ItemRow], back: usize) -> Option<&ItemRow>
    ensures { option_map (λ i. item_columns i.now) result
        ≡ known_at next (map item_columns items.now) back }
{
    let [item, others @ ..] = items else {
        return None;
    };
    let number = number_before(next);
    if !is_record_of(number, item) {
        return None;
    }
    if back == 0 {
        return Some(item);
    }
    known_at(number, others, back - 1)
}

// Octets again; none, if there are none.
fn octets_of(alloc: Global, octets: &Option<Vec<u8>>) -> Result<Vec<u8>, AllocError>
    ensures { IfOk result (λ copy. copy.items
        ≡ text_at (or_null (λ b. Text b.items) octets.now)) }
{
    match octets {
        Some(octets) => Vec::from_slice(alloc, octets.as_slice()),
        None => Ok(Vec::new(alloc)),
    }
}

// The date and time of an item; unknown, if it has none.
fn stamp_of(alloc: Global, item: &ItemRow) -> Result<DateTime, AllocError>
    ensures { IfOk result (HasDate (item_columns item.now)) }
{
    match &item.stamp {
        Some(text) => date_of(alloc, text.as_slice()),
        None => date_of(alloc, &[]),
    }
}

// A record, as the poll knows it.
fn kept_of(alloc: Global, item: &ItemRow) -> Result<Kept, AllocError>
    ensures { IfOk result (λ kept. IsKept (item_columns item.now) (kept_as kept)) }
{
    let stamp = stamp_of(alloc, item)?;
    let datum = octets_of(alloc, &item.datum)?;
    let flags = octets_of(alloc, &item.flags)?;
    Ok(Kept {
        number: number_of(item),
        stamp,
        datum,
        flags,
    })
}

/// The record so many places back of those right before a number.
pub(crate) fn kept_at(
    alloc: Global,
    next: u32,
    items: &[ItemRow],
    back: usize,
) -> Result<Option<Kept>, AllocError>
    ensures { IfOk result (λ kept. Agree IsKept (known_at next (map item_columns items.now) back)
        (maybe_kept kept)) }
{
    match known_at(next, items, back) {
        Some(item) => Ok(Some(kept_of(alloc, item)?)),
        None => Ok(None),
    }
}

// The newest record among items.
fn newest_record(items: &[ItemRow]) -> Option<&ItemRow>
    ensures { option_map (λ i. item_columns i.now) result
        ≡ newest_record (map item_columns items.now) }
{
    for item in items {
        if item.last.is_none() {
            return Some(item);
        }
    }
    None
}

/// Its date and time.
pub(crate) fn newest_stamp(alloc: Global, items: &[ItemRow]) -> Result<Option<DateTime>, AllocError>
    ensures { IfOk result (Agree HasDate (newest_record (map item_columns items.now))) }
{
    match newest_record(items) {
        Some(item) => Ok(Some(stamp_of(alloc, item)?)),
        None => Ok(None),
    }
}
