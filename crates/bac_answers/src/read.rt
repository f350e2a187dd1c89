//! What an answer to ReadProperty tells (clause 15.5).

ghost use Rattle.std.specs.Prelude.{◌≡◌, ◌<◌, ◌∷◌, IfNone, IfOk, IfSome, Some, length, option_map};
ghost use Rattle.std.specs.String.{string_bytes};
ghost use Rattle.bac_wire.specs.Chain.{Gives};
ghost use Rattle.bac_wire.specs.OptionChain.{GivesSome};
ghost use Rattle.bac_wire.specs.Primitive.{Chars};
ghost use Rattle.bac_wire.specs.View.{view, IsWellFormed};
ghost use Rattle.bac_link.specs.Datagrams.{apdu_in};
ghost use Rattle.bac_answers.specs.Values.{IsText, date_of, enumerated_of, no_objects};
ghost use Rattle.bac_answers.specs.Values.{number_of};
ghost use Rattle.bac_answers.specs.Values.{object_in, object_of, objects_in, objects_of};
ghost use Rattle.bac_answers.specs.Values.{only_object};
ghost use Rattle.bac_answers.specs.Values.{time_of, told_by, value_by, value_of, values_in};

use crate::text::Text;
use bac_apdu::{Apdu, ReadPropertyAck};
use bac_link::{Verdict, read_datagram};
use bac_print::text_of;
use bac_wire::{Datagram, Date4, ObjectId, Reader, Time4, Value, as_object};
use std::alloc::{AllocError, Global};

/// The tag of an Object Identifier (clause 20.2.14).
const OBJECT_TAG: u8 = 0xc4;

// The octets of the values in an ACK.
fn values_in(datagram: &Datagram) -> Option<&[u8]>
    ensures { GivesSome (λ values. values.now) result (values_in (apdu_in datagram.now)) }
{
    match read_datagram(datagram.octets()) {
        Some(Apdu::Complex { parameters, .. }) => match ReadPropertyAck::read(parameters) {
            Some(ack) => Some(ack.values),
            None => None,
        },
        _ => None,
    }
}

/// The octets that an answer tells; none, if it refuses.
pub(crate) fn told(verdict: Verdict, datagram: &Datagram) -> Option<&[u8]>
    ensures { GivesSome (λ values. values.now) result (told_by verdict datagram.now) }
{
    match verdict {
        Verdict::Ack => values_in(datagram),
        Verdict::Refused(_) => None,
        Verdict::BadReply => None,
    }
}

// The one value that octets are.
fn only(octets: &[u8]) -> Option<Value<'_>>
    ensures { GivesSome view result (value_of (Some octets.now)) }
{
    let mut left = Reader::of(octets);
    let Ok(value) = left.value() else {
        return None;
    };
    match left.rest() {
        [] => Some(value),
        [_, ..] => None,
    }
}

// The one value that an answer tells.
fn value(verdict: Verdict, datagram: &Datagram) -> Option<Value<'_>>
    ensures { GivesSome view result (value_by verdict datagram.now) }
{
    match told(verdict, datagram) {
        Some(octets) => only(octets),
        None => None,
    }
}

/// The number of 32 bits that an answer tells, if it tells one.
pub fn told_number(verdict: Verdict, datagram: &Datagram) -> Option<u32>
    ensures { result ≡ number_of (value_by verdict datagram.now) }
{
    match value(verdict, datagram) {
        Some(Value::Unsigned(number)) => {
            if number > 4294967295 {
                None
            } else {
                Some(number as u32)
            }
        }
        _ => None,
    }
}

/// The number of the Enumerated that it tells, such as units (BACnetEngineeringUnits).
pub fn told_units(verdict: Verdict, datagram: &Datagram) -> Option<u32>
    ensures { result ≡ enumerated_of (value_by verdict datagram.now) }
{
    match value(verdict, datagram) {
        Some(Value::Enumerated(number)) => Some(number),
        _ => None,
    }
}

/// The Date.
pub fn told_date(verdict: Verdict, datagram: &Datagram) -> Option<Date4>
    ensures { result ≡ date_of (value_by verdict datagram.now) }
{
    match value(verdict, datagram) {
        Some(Value::Date(date)) => Some(date),
        _ => None,
    }
}

/// The Time.
pub fn told_time(verdict: Verdict, datagram: &Datagram) -> Option<Time4>
    ensures { result ≡ time_of (value_by verdict datagram.now) }
{
    match value(verdict, datagram) {
        Some(Value::Time(time)) => Some(time),
        _ => None,
    }
}

// A Character String in Unicode.
fn unicode(alloc: Global, set: u8, octets: &[u8]) -> Result<Option<Text>, AllocError>
    ensures { IfOk result (λ text. IsText (Some (Chars set octets.now)) text) }
{
    match text_of(alloc, set, octets)? {
        Some(text) => {
            let text = Text::of(alloc, text.as_bytes())?;
            Ok(Some(text))
        }
        None => Ok(None),
    }
}

/// The Character String in Unicode.
pub fn told_text(
    alloc: Global,
    verdict: Verdict,
    datagram: &Datagram,
) -> Result<Option<Text>, AllocError>
    ensures { IfOk result (λ text. IsText (value_by verdict datagram.now) text) }
{
    match value(verdict, datagram) {
        Some(Value::Chars { set, octets }) => unicode(alloc, set, octets),
        _ => Ok(None),
    }
}

// An object identifier: its tag, and four octets.
fn object_in(tag: u8, octets: &[u8]) -> Option<ObjectId>
    ensures { result ≡ object_in tag octets.now }
{
    if tag != OBJECT_TAG {
        return None;
    }
    match as_object(octets) {
        Ok(object) => Some(object),
        Err(_) => None,
    }
}

// Octets that are one.
fn only_object(octets: &[u8]) -> Option<ObjectId>
    ensures { result ≡ only_object octets.now }
{
    match octets {
        [tag, a, b, c, d] => object_in(*tag, &[*a, *b, *c, *d]),
        _ => None,
    }
}

/// The object identifier. It is taken from its octets, since this toolchain doesn't prove a
/// function that takes it from a `Value`.
pub fn told_object(verdict: Verdict, datagram: &Datagram) -> Option<ObjectId>
    ensures { result ≡ object_of (told_by verdict datagram.now) }
{
    match told(verdict, datagram) {
        Some(octets) => only_object(octets),
        None => None,
    }
}

// The first five octets, and what follows them.
fn front(octets: &[u8]) -> Option<(u8, u8, u8, u8, u8, &[u8])>
    ensures some { IfSome result (λ it. octets.now
        ≡ it.0 ∷ it.1 ∷ it.2 ∷ it.3 ∷ it.4 ∷ it.5.now) }
    ensures none { IfNone result (objects_in octets.now ≡ no_objects octets.now) }
{
    let [tag, a, b, c, d, after @ ..] = octets else {
        return None;
    };
    Some((*tag, *a, *b, *c, *d, after))
}

// The first object identifier, and what follows it.
#[tactic(auto, using(crate::proofs::Objects::first_is))]
fn first_object(octets: &[u8]) -> Option<(ObjectId, &[u8])>
    ensures some { IfSome result (λ it. objects_in octets.now
        ≡ option_map (λ objects. it.0 ∷ objects) (objects_in it.1.now)) }
    ensures shorter { IfSome result (λ it. length it.1.now < length octets.now) }
    ensures none { IfNone result (objects_in octets.now ≡ no_objects octets.now) }
{
    let Some((tag, a, b, c, d, after)) = front(octets) else {
        return None;
    };
    match object_in(tag, &[a, b, c, d]) {
        Some(object) => Some((object, after)),
        None => None,
    }
}

// Object identifiers, one behind the other.
fn objects_in(alloc: Global, octets: &[u8]) -> Result<Option<Vec<ObjectId>>, AllocError>
    ensures { IfOk result
        (λ found. option_map (λ v. v.items) found ≡ objects_in octets.now) }
{
    let mut found = Vec::new(alloc);
    let mut rest = octets;
    for taken in 0..octets.len() {
        let Some((object, after)) = first_object(rest) else {
            return Ok(if rest.is_empty() { Some(found) } else { None });
        };
        found.push(object)?;
        rest = after;
    }
    Ok(Some(found))
}

/// The object identifiers, one behind the other.
pub fn told_objects(
    alloc: Global,
    verdict: Verdict,
    datagram: &Datagram,
) -> Result<Option<Vec<ObjectId>>, AllocError>
    ensures { IfOk result (λ found. option_map (λ v. v.items) found
        ≡ objects_of (told_by verdict datagram.now)) }
{
    match told(verdict, datagram) {
        Some(octets) => objects_in(alloc, octets),
        None => Ok(None),
    }
}
