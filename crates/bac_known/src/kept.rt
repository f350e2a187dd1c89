//! Records as their rows have them.

ghost use Rattle.std.specs.Prelude.{◌≡◌, IfOk};
ghost use Rattle.bac_print.specs.Entries.{datum_text, flags_text};
ghost use Rattle.std.specs.Option.{is_some, option_map};
ghost use Rattle.bac_known.specs.Kept.{kept_as, kept_of, kept_or, maybe_kept};

use crate::date_time::DateTime;
use bac_log::Datum;
use bac_print::{push_datum, push_flags};
use bac_walk::Numbered;
use std::alloc::{AllocError, Global};

/// A record as its row has it: its number, its date and time, and the texts of its datum and of its
/// status flags, as `log` prints them.
#[derive(Drop)]
pub struct Kept {
    pub number: u32,
    pub stamp: DateTime,
    pub datum: Vec<u8>,
    pub flags: Vec<u8>,
}

impl Kept {
    /// A record as it would be kept.
    pub fn of(alloc: Global, held: Numbered) -> Result<Kept, AllocError>
        ensures { IfOk result (λ kept. kept_as kept ≡ kept_of held) }
    {
        let datum = datum_of(alloc, held.entry.datum)?;
        let flags = flags_of(alloc, held.entry.flags)?;
        Ok(Kept {
            number: held.number,
            stamp: DateTime::of(&held.entry),
            datum,
            flags,
        })
    }
}

// What was logged.
fn datum_of(alloc: Global, datum: Datum) -> Result<Vec<u8>, AllocError>
    ensures { IfOk result (λ text. text.items ≡ datum_text datum) }
{
    let mut text = Vec::new(alloc);
    push_datum(&mut text, &datum)?;
    Ok(text)
}

// The status flags.
fn flags_of(alloc: Global, flags: Option<u8>) -> Result<Vec<u8>, AllocError>
    ensures { IfOk result (λ text. text.items ≡ flags_text flags) }
{
    let mut text = Vec::new(alloc);
    push_flags(&mut text, flags)?;
    Ok(text)
}

/// Whether a record is known.
pub fn is_known(kept: &Option<Kept>) -> bool
    ensures { result ≡ is_some (maybe_kept kept.now) }
{
    match kept {
        Some(_) => true,
        None => false,
    }
}

/// This record, or that where there is none.
pub fn kept_or(kept: Option<Kept>, other: Option<Kept>) -> Option<Kept>
    ensures { maybe_kept result ≡ kept_or (maybe_kept kept) (maybe_kept other) }
{
    match kept {
        Some(kept) => Some(kept),
        None => other,
    }
}

/// One that there may be, as it would be kept.
pub fn kept_of(alloc: Global, held: Option<Numbered>) -> Result<Option<Kept>, AllocError>
    ensures { IfOk result (λ kept. maybe_kept kept ≡ option_map kept_of held) }
{
    match held {
        Some(held) => Ok(Some(Kept::of(alloc, held)?)),
        None => Ok(None),
    }
}
