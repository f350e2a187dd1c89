//! The Object_List of a device (clause 12.11): how it is asked for, and the objects that are told.

ghost use Rattle.std.specs.Prelude.{◌≡◌, ◌<◌, ◌≤◌, ◌+◌, ◌*◌, Ok, IfOk, IfSome, IsNone, List, ℕ};
ghost use Rattle.std.specs.Prelude.{false, length, true};
ghost use Rattle.bac_wire.specs.Primitive.{Id};
ghost use Rattle.bac_query.specs.ObjectList.{AreObjects, IsObject, TellsObject, TellsObjects};
ghost use Rattle.bac_query.specs.ObjectList.{list_at, octets_at, whole_list};

use crate::answers::values_in;
use bac_apdu::ReadProperty;
use bac_link::ExchangeFault;
use bac_wire::{Datagram, ObjectId};

/// The type of a Device object (clause 21).
pub const DEVICE: u16 = 8;

/// The instance that stands for the device itself, whichever it has.
pub const ITSELF: u32 = 4_194_303;

/// The property Object_List.
pub const OBJECT_LIST: u32 = 76;

/// A question for the list of the device itself.
fn question(index: Option<u32>) -> ReadProperty
    ensures { result ≡ record {
      object = record { kind = 8; instance = 4194303 };
      property = 76;
      index = index;
    } }
{
    match ObjectId::new(DEVICE, ITSELF) {
        Some(object) => ReadProperty {
            object,
            property: OBJECT_LIST,
            index,
        },
        None => unreachable!(),
    }
}

/// A place of the list, from 1 on; at 0 it has how many there are.
pub(crate) fn list_at(place: u32) -> ReadProperty
    ensures { result ≡ list_at place }
{
    question(Some(place))
}

/// The whole list.
pub(crate) fn whole_list() -> ReadProperty
    ensures { result ≡ whole_list }
{
    question(None)
}

/// The object that an answer names (clause 20.2.14). It is taken from its octets, since this
/// toolchain doesn't prove a function that takes it from a `Value`.
pub fn object_in(answer: &Datagram) -> Option<ObjectId>
    ensures found { IfSome result (λ object. TellsObject answer.now object) }
    ensures none { IsNone result → (object : Id) → TellsObject answer.now object → ⊥ }
{
    object_of(values_in(answer)?)
}

/// The object identifier that octets are.
fn object_of(values: &[u8]) -> Option<ObjectId>
    ensures found { IfSome result (λ object. IsObject object values.now) }
    ensures none { IsNone result → (object : Id) → IsObject object values.now → ⊥ }
{
    let [0xc4, a, b, c, d] = values else {
        return None;
    };
    let number = u32::from_be_bytes([*a, *b, *c, *d]);
    ObjectId::new((number / 4_194_304) as u16, number % 4_194_304)
}

/// The object identifier at a place of octets that have five for each, from place 0 on.
pub fn object_at(values: &[u8], place: u32) -> Option<ObjectId>
    requires { 5 * place + 5 ≤ length values.now }
    ensures found { IfSome result (λ object. IsObject object (octets_at place values.now)) }
    ensures none { IsNone result → (object : Id)
        → IsObject object (octets_at place values.now) → ⊥ }
{
    let (_before, behind) = values.split_at(5 * place as usize);
    let (octets, _more) = behind.split_at(5);
    object_of(octets)
}

/// Whether octets are so many object identifiers.
fn are_objects(values: &[u8], count: u32) -> bool
    ensures are { result ≡ true → AreObjects count values.now }
    ensures none { result ≡ false → AreObjects count values.now → ⊥ }
{
    if values.len() as u64 != 5 * u64::from(count) {
        return false;
    }
    for place in 0..count {
        let Some(_object) = object_at(values, place) else {
            return false;
        };
    }
    true
}

/// The octets of so many object identifiers, if an answer has these and nothing else.
pub fn objects_in(answer: &Datagram, count: u32) -> Option<&[u8]>
    ensures found { IfSome result (λ values. TellsObjects answer.now count values.now) }
    ensures none { IsNone result → (values : List ℕ) → TellsObjects answer.now count values → ⊥ }
{
    let values = values_in(answer)?;
    if are_objects(values, count) {
        Some(values)
    } else {
        None
    }
}

/// The octets of so many object identifiers, if they are what was answered.
pub fn listed_in(answer: &Result<Datagram, ExchangeFault>, count: u32) -> Option<&[u8]>
    ensures found { IfSome result (λ values. (datagram : List ℕ) × (answer.now ≡ Ok datagram)
        × TellsObjects datagram count values.now) }
    ensures none { IsNone result → IfOk answer.now (λ datagram. (values : List ℕ)
        → TellsObjects datagram count values → ⊥) }
{
    match answer {
        Ok(datagram) => objects_in(datagram, count),
        Err(_fault) => None,
    }
}
