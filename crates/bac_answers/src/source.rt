//! What a trend log logs: a BACnetDeviceObjectPropertyReference (clause 21).

ghost use Rattle.std.specs.Prelude.{◌≡◌, Some};
ghost use Rattle.bac_wire.specs.Chain.{Gives};
ghost use Rattle.bac_answers.specs.Source.{maybe_device, maybe_index, number_at, object_at};
ghost use Rattle.bac_answers.specs.Source.{property_at, reference_at, source_of};
ghost use Rattle.bac_answers.specs.Values.{told_by};

use crate::entry::Reference;
use crate::read::told;
use bac_link::Verdict;
use bac_wire::{Datagram, ObjectId, Reader, WireFault, as_enumerated, as_object, as_unsigned};

// An object behind a context tag.
fn object_at(left: &mut Reader<'_>, tag: u8) -> Result<ObjectId, WireFault>
    ensures { Gives (λ object. (object, left.new)) result (object_at tag left.old) }
{
    let contents = left.contents(tag)?;
    as_object(contents)
}

// A property behind a context tag.
fn property_at(left: &mut Reader<'_>, tag: u8) -> Result<u32, WireFault>
    ensures { Gives (λ property. (property, left.new)) result (property_at tag left.old) }
{
    let contents = left.contents(tag)?;
    as_enumerated(contents)
}

// A number behind a context tag.
fn number_at(left: &mut Reader<'_>, tag: u8) -> Result<u64, WireFault>
    ensures { Gives (λ number. (number, left.new)) result (number_at tag left.old) }
{
    let contents = left.contents(tag)?;
    as_unsigned(contents)
}

// An index, which may be left out.
fn maybe_index(left: &mut Reader<'_>, tag: u8) -> Result<Option<u64>, WireFault>
    ensures { Gives (λ index. (index, left.new)) result (maybe_index tag left.old) }
{
    if !left.is_value_next(tag) {
        return Ok(None);
    }
    let index = number_at(left, tag)?;
    Ok(Some(index))
}

// A device, which may be left out.
fn maybe_device(left: &mut Reader<'_>, tag: u8) -> Result<Option<ObjectId>, WireFault>
    ensures { Gives (λ device. (device, left.new)) result (maybe_device tag left.old) }
{
    if !left.is_value_next(tag) {
        return Ok(None);
    }
    let device = object_at(left, tag)?;
    Ok(Some(device))
}

// The reference that octets are.
#[tactic(auto, unfolding(crate::specs::Source::reference_at))]
fn reference_in(octets: &[u8]) -> Result<Reference, WireFault>
    ensures { Gives (λ reference. reference) result (reference_at octets.now) }
{
    let mut left = Reader::of(octets);
    let object = object_at(&mut left, 0)?;
    let property = property_at(&mut left, 1)?;
    let index = maybe_index(&mut left, 2)?;
    let device = maybe_device(&mut left, 3)?;
    match left.rest() {
        [] => Ok(Reference {
            object,
            property,
            index,
            device,
        }),
        [_, ..] => Err(WireFault::BadLength),
    }
}

/// The reference that an answer tells.
pub fn told_source(verdict: Verdict, datagram: &Datagram) -> Option<Reference>
    ensures { result ≡ source_of (told_by verdict datagram.now) }
{
    match told(verdict, datagram) {
        Some(octets) => match reference_in(octets) {
            Ok(reference) => Some(reference),
            Err(_) => None,
        },
        None => None,
    }
}
