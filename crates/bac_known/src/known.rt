//! What records say of those that are known.

ghost use Rattle.std.specs.Prelude.{◌≡◌, ◌<◌, IfOk};
ghost use Rattle.bac_known.specs.Kept.{kept_as, maybe_kept};
ghost use Rattle.bac_known.specs.Known.{is_another, is_equal, is_same_value, is_steady_with};
ghost use Rattle.bac_known.specs.Known.{is_unshown, maybe_shown, means_all, means_of, means_other};
ghost use Rattle.bac_known.specs.Known.{means_shifted, means_some, number_in, record_at};
ghost use Rattle.bac_known.specs.Known.{records_behind, shift, shift_in, shift_of, shown_as};
ghost use Rattle.bac_known.specs.Known.{shown_in};

use crate::date_time::DateTime;
use crate::kept::Kept;
use bac_walk::Numbered;
use std::alloc::{AllocError, Global};

/// What is shown of a known record.
#[derive(Clone, Copy, Debug, PartialEq, Eq)]
pub enum Shown {
    /// Nothing.
    Unshown,
    /// The record as it is known.
    Equal,
    /// The same at another hour: by so many quarter hours later, and a hundred.
    Moved(u32),
    /// Another one of its number.
    Another,
}

/// What is shown of all of them.
#[derive(Clone, Copy, Debug, PartialEq, Eq)]
pub enum Means {
    /// Nothing.
    Unshown,
    /// Each that is shown is as it is known.
    Same,
    /// All are the same, at another hour.
    Shifted(u32),
    /// Some are, and the others aren't shown.
    Partly,
    /// Another record has a known number.
    Another,
}

// ---- one known record

// By how many quarter hours a moment is shown later, and a hundred.
fn shift(was: u64, now: u64) -> Shown
    requires was { was < 1000000000000000000 }
    requires now { now < 1000000000000000000 }
    ensures { result ≡ shift was now }
{
    if was <= now + 9000000 && now <= was + 9000000 && (now + 9000000 - was) % 90000 == 0 {
        Shown::Moved(((now + 9000000 - was) / 90000) as u32)
    } else {
        Shown::Another
    }
}

// Whether datum and flags are the same.
fn is_same_value(kept: &Kept, held: &Kept) -> bool
    ensures { result ≡ is_same_value (kept_as kept.now) (kept_as held.now) }
{
    kept.datum.as_slice() == held.datum.as_slice() && kept.flags.as_slice() == held.flags.as_slice()
}

// Two dates and times that aren't the same.
fn shift_of(was: &DateTime, now: &DateTime) -> Shown
    ensures { result ≡ shift_of was.now now.now }
{
    if was.is_moment() && now.is_moment() {
        shift(was.ticks(), now.ticks())
    } else {
        Shown::Another
    }
}

/// What a record that is shown under its number is.
pub fn shown_as(kept: &Kept, held: &Kept) -> Shown
    ensures { result ≡ shown_as (kept_as kept.now) (kept_as held.now) }
{
    if !is_same_value(kept, held) {
        return Shown::Another;
    }
    if kept.stamp.is_same(&held.stamp) {
        return Shown::Equal;
    }
    shift_of(&kept.stamp, &held.stamp)
}

/// The record of this number, if it is among these.
pub fn record_at(number: u32, records: &[Numbered]) -> Option<Numbered>
    ensures { result ≡ record_at number records.now }
{
    records.iter().copied().find(|held| held.number == number)
}

// That one, if there is one, as the known one.
fn maybe_shown(alloc: Global, kept: &Kept, held: Option<Numbered>) -> Result<Shown, AllocError>
    ensures { IfOk result (λ shown. shown ≡ maybe_shown (kept_as kept.now) held) }
{
    match held {
        Some(held) => {
            let held = Kept::of(alloc, held)?;
            Ok(shown_as(kept, &held))
        }
        None => Ok(Shown::Unshown),
    }
}

/// What records show of one, if it is known.
pub fn shown_in(
    alloc: Global,
    kept: &Option<Kept>,
    records: &[Numbered],
) -> Result<Shown, AllocError>
    ensures { IfOk result (λ shown. shown ≡ shown_in (maybe_kept kept.now) records.now) }
{
    match kept {
        Some(kept) => maybe_shown(alloc, kept, record_at(kept.number, records)),
        None => Ok(Shown::Unshown),
    }
}

/// The records behind that of this number.
pub fn records_behind(number: u32, records: Vec<Numbered>) -> Vec<Numbered>
    ensures { result.items ≡ records_behind number records.items }
{
    let mut records = records;
    let count = records.len();
    for _ in 0..count {
        let first = match records.as_slice() {
            [first, ..] => first.number,
            [] => return records,
        };
        records.remove(0);
        if first == number {
            return records;
        }
    }
    records
}

/// The number of a known record, if there is one.
pub fn number_in(kept: &Option<Kept>) -> Option<u32>
    ensures { result ≡ number_in (maybe_kept kept.now) }
{
    match kept {
        Some(kept) => Some(kept.number),
        None => None,
    }
}

// ---- all of them

fn is_unshown(shown: Shown) -> bool
    ensures { result ≡ is_unshown shown }
{
    match shown {
        Shown::Unshown => true,
        Shown::Equal => false,
        Shown::Moved(_) => false,
        Shown::Another => false,
    }
}

fn is_another(shown: Shown) -> bool
    ensures { result ≡ is_another shown }
{
    match shown {
        Shown::Unshown => false,
        Shown::Equal => false,
        Shown::Moved(_) => false,
        Shown::Another => true,
    }
}

// Nothing is against it.
fn is_equal(shown: Shown) -> bool
    ensures { result ≡ is_equal shown }
{
    match shown {
        Shown::Unshown => true,
        Shown::Equal => true,
        Shown::Moved(_) => false,
        Shown::Another => false,
    }
}

// By how many quarter hours later, and a hundred.
fn shift_in(shown: Shown) -> u32
    ensures { result ≡ shift_in shown }
{
    match shown {
        Shown::Unshown => 0,
        Shown::Equal => 100,
        Shown::Moved(by) => by,
        Shown::Another => 0,
    }
}

// Three known records that are shown.
fn means_all(newest: Shown, earlier: Shown, earliest: Shown) -> Means
    ensures { result ≡ means_all newest earlier earliest }
{
    if shift_in(newest) == shift_in(earlier) || shift_in(earlier) == shift_in(earliest) {
        Means::Shifted(shift_in(newest))
    } else {
        Means::Another
    }
}

// Some aren't shown.
fn means_some(three: bool) -> Means
    ensures { result ≡ means_some three }
{
    if three { Means::Partly } else { Means::Another }
}

// None is as it is known, and none is another one.
fn means_shifted(three: bool, newest: Shown, earlier: Shown, earliest: Shown) -> Means
    ensures { result ≡ means_shifted three newest earlier earliest }
{
    if is_unshown(newest) || is_unshown(earlier) || is_unshown(earliest) {
        means_some(three)
    } else {
        means_all(newest, earlier, earliest)
    }
}

// Not all are equal.
fn means_other(three: bool, newest: Shown, earlier: Shown, earliest: Shown) -> Means
    ensures { result ≡ means_other three newest earlier earliest }
{
    if is_another(newest) || is_another(earlier) || is_another(earliest) {
        Means::Another
    } else {
        means_shifted(three, newest, earlier, earliest)
    }
}

/// What is shown of up to three of them.
pub fn means_of(three: bool, newest: Shown, earlier: Shown, earliest: Shown) -> Means
    ensures { result ≡ means_of three newest earlier earliest }
{
    if is_unshown(newest) && is_unshown(earlier) && is_unshown(earliest) {
        return Means::Unshown;
    }
    if is_equal(newest) && is_equal(earlier) && is_equal(earliest) {
        return Means::Same;
    }
    means_other(three, newest, earlier, earliest)
}

/// Whether two known records have one value.
pub fn is_steady_with(kept: &Option<Kept>, other: &Option<Kept>) -> bool
    ensures { result ≡ is_steady_with (maybe_kept kept.now) (maybe_kept other.now) }
{
    match kept {
        Some(kept) => match other {
            Some(other) => is_same_value(kept, other),
            None => false,
        },
        None => false,
    }
}
