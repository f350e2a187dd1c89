//! The records of a reply.

ghost use Rattle.std.specs.Prelude.{◌≡◌, IfOk};
ghost use Rattle.bac_wire.specs.OptionChain.{GivesSome};
ghost use Rattle.bac_known.specs.Records.{number_told, numbered_in};

use crate::numbers::number_behind;
use bac_log::read_entry;
use bac_walk::Numbered;
use std::alloc::{AllocError, Global};

/// A record has so many octets at least.
const LEAST: usize = 15;

/// The number of the first record that a reply tells; 0, which is none, if it tells none.
pub fn number_told(first: Option<u32>) -> u32
    ensures { result ≡ number_told first }
{
    match first {
        Some(first) => first,
        None => 0,
    }
}

/// Octets as records, the first of which has this number; none, if they aren't records all through.
pub fn records_in(
    alloc: Global,
    first: u32,
    octets: &[u8],
) -> Result<Option<Vec<Numbered>>, AllocError>
    ensures { IfOk result (λ records. GivesSome (λ r. r.items) records
        (numbered_in first octets.now)) }
{
    let mut records = Vec::with_capacity(alloc, octets.len() / LEAST)?;
    let mut number = first;
    let mut rest = octets;
    for taken in 0..octets.len() {
        if rest.is_empty() {
            return Ok(Some(records));
        }
        let Some((entry, len)) = read_entry(rest) else {
            return Ok(None);
        };
        records.push(Numbered { number, entry })?;
        number = number_behind(number);
        rest = &rest[len..];
    }
    if rest.is_empty() {
        Ok(Some(records))
    } else {
        Ok(None)
    }
}
