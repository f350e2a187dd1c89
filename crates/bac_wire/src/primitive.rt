//! The contents of each primitive type (clauses 20.2.2 to 20.2.14).

ghost use Rattle.std.specs.Prelude.{◌≡◌, ◌≢◌, ◌-◌, ◌*◌, ◌^◌, ◌<◌, ◌≤◌, length, map, take, IfOk};
ghost use Rattle.std.specs.Prelude.{true};
ghost use Rattle.bac_wire.specs.Number.{number, signed, bits_of};
ghost use Rattle.bac_wire.specs.Chain.{Gives};
ghost use Rattle.bac_wire.specs.PrimitiveType.{type_number};
ghost use Rattle.bac_wire.specs.Reading.{has_length, chars_in, bits_in, enumerated_in, value_in};
ghost use Rattle.bac_wire.specs.Reading.{contents_as};
ghost use Rattle.bac_wire.specs.View.{view, IsWellFormed};
ghost use Rattle.bac_wire.specs.Stamp.{date_octets, time_octets};
ghost use Rattle.bac_wire.specs.Primitive.{Boolean, Unsigned, Signed, Enumerated, Object, Bits};

use crate::fault::WireFault;
use crate::object_id::ObjectId;
use crate::primitive_type::PrimitiveType;
use crate::stamp::{Date4, Time4};
use crate::value::Value;

/// An unsigned number, high octet first (clause 20.2.4).
pub(crate) fn unsigned_of(octets: &[u8]) -> u64
    requires { length octets.now ≤ 8 }
    ensures value { result ≡ number octets.now }
    ensures bound { result < 256 ^ length octets.now }
{
    let mut number: u64 = 0;
    for octet in octets {
        number = number * 256 + *octet as u64;
    }
    number
}

/// The number of the octets with each bit turned.
fn complement_of(octets: &[u8]) -> u64
    requires { length octets.now ≤ 8 }
    ensures value { result ≡ number (map (λ b. 255 - b) octets.now) }
{
    let mut number: u64 = 0;
    for octet in octets {
        number = number * 256 + (255 - *octet) as u64;
    }
    number
}

/// A number in two's complement, high octet first (clause 20.2.5).
fn signed_of(octets: &[u8]) -> i64
    requires some { 1 ≤ length octets.now }
    requires few { length octets.now ≤ 8 }
    ensures { result ≡ signed octets.now }
{
    if octets[0] < 128 {
        unsigned_of(octets) as i64
    } else {
        -1 - complement_of(octets) as i64
    }
}

/// Which lengths the contents of a type have.
pub(crate) fn has_length_of(kind: PrimitiveType, len: usize) -> bool
    ensures { result ≡ has_length (type_number kind) len }
{
    match kind {
        PrimitiveType::Null => len == 0,
        PrimitiveType::Unsigned | PrimitiveType::Signed | PrimitiveType::Enumerated => {
            1 <= len && len <= 8
        }
        PrimitiveType::Real
        | PrimitiveType::Date
        | PrimitiveType::Time
        | PrimitiveType::ObjectIdentifier => len == 4,
        PrimitiveType::Double => len == 8,
        PrimitiveType::OctetString => true,
        PrimitiveType::Boolean | PrimitiveType::CharacterString | PrimitiveType::BitString => {
            1 <= len
        }
    }
}

/// The value of contents that have a length of their type. A Boolean has none after its
/// application tag.
#[tactic(auto, unfolding(crate::specs::Reading::value_in))]
pub(crate) fn value_of_contents(kind: PrimitiveType, contents: &[u8]) -> Result<Value, WireFault>
    requires length { has_length (type_number kind) (length contents.now) ≡ true }
    requires no_boolean { type_number kind ≢ 1 }
    ensures exact { Gives view result (value_in (type_number kind) contents.now) }
    ensures well_formed { IfOk result IsWellFormed }
{
    Ok(match kind {
        PrimitiveType::Null => Value::Null,
        PrimitiveType::Boolean => unreachable!(),
        PrimitiveType::Unsigned => Value::Unsigned(unsigned_of(contents)),
        PrimitiveType::Signed => Value::Signed(signed_of(contents)),
        PrimitiveType::Real => Value::Real4(four_of(contents)),
        PrimitiveType::Double => Value::Double8(eight_of(contents)),
        PrimitiveType::OctetString => Value::Octets(contents),
        PrimitiveType::CharacterString => return chars_of(contents),
        PrimitiveType::BitString => return bits_of(contents),
        PrimitiveType::Enumerated => return enumerated_of(contents),
        PrimitiveType::Date => Value::Date(date_in(contents)),
        PrimitiveType::Time => Value::Time(time_in(contents)),
        PrimitiveType::ObjectIdentifier => {
            Value::Object(ObjectId::of_number(unsigned_of(contents) as u32))
        }
    })
}

fn four_of(octets: &[u8]) -> [u8; 4]
    requires { length octets.now ≡ 4 }
    ensures { result ≡ octets.now }
{
    [octets[0], octets[1], octets[2], octets[3]]
}

fn eight_of(octets: &[u8]) -> [u8; 8]
    requires { length octets.now ≡ 8 }
    ensures { result ≡ octets.now }
{
    [
        octets[0], octets[1], octets[2], octets[3], octets[4], octets[5], octets[6], octets[7],
    ]
}

/// Year, month, day, weekday (clause 20.2.12).
fn date_in(octets: &[u8]) -> Date4
    requires { length octets.now ≡ 4 }
    ensures { date_octets result ≡ octets.now }
{
    Date4 {
        year: octets[0],
        month: octets[1],
        day: octets[2],
        weekday: octets[3],
    }
}

/// Hour, minute, second, hundredth (clause 20.2.13).
fn time_in(octets: &[u8]) -> Time4
    requires { length octets.now ≡ 4 }
    ensures { time_octets result ≡ octets.now }
{
    Time4 {
        hour: octets[0],
        minute: octets[1],
        second: octets[2],
        hundredth: octets[3],
    }
}

/// The octet of the character set, then the characters (clause 20.2.9).
fn chars_of(contents: &[u8]) -> Result<Value, WireFault>
    ensures exact { Gives view result (chars_in contents.now) }
    ensures well_formed { IfOk result IsWellFormed }
{
    match contents {
        [] => Err(WireFault::BadContents),
        [set, octets @ ..] => Ok(Value::Chars { set: *set, octets }),
    }
}

/// The count of unused bits, then the bits (clause 20.2.10).
fn bits_of(contents: &[u8]) -> Result<Value, WireFault>
    ensures exact { Gives view result (bits_in contents.now) }
    ensures well_formed { IfOk result IsWellFormed }
{
    match contents {
        [] => Err(WireFault::BadContents),
        [unused, octets @ ..] => {
            if *unused > 7 || (octets.is_empty() && *unused > 0) {
                return Err(WireFault::BadContents);
            }
            Ok(Value::Bits {
                unused: *unused,
                octets,
            })
        }
    }
}

/// A number below 2^32 (clause 20.2.11).
fn enumerated_of(contents: &[u8]) -> Result<Value, WireFault>
    requires { length contents.now ≤ 8 }
    ensures exact { Gives view result (enumerated_in contents.now) }
    ensures well_formed { IfOk result IsWellFormed }
{
    let number = unsigned_of(contents);
    if number > 4294967295 {
        return Err(WireFault::BadContents);
    }
    Ok(Value::Enumerated(number as u32))
}

/// The contents of an Unsigned after a context tag, 1 to 8 octets (clause 20.2.4). BadLength for
/// any other length.
#[tactic(auto, unfolding(crate::specs::Reading::contents_as, crate::specs::Reading::value_in))]
pub fn as_unsigned(contents: &[u8]) -> Result<u64, WireFault>
    ensures { Gives (λ n. Unsigned n) result (contents_as 2 contents.now) }
{
    if !has_length_of(PrimitiveType::Unsigned, contents.len()) {
        return Err(WireFault::BadLength);
    }
    Ok(unsigned_of(contents))
}

/// The contents of a Signed after a context tag, 1 to 8 octets in two's complement (clause
/// 20.2.5). BadLength for any other length.
#[tactic(auto, unfolding(crate::specs::Reading::contents_as, crate::specs::Reading::value_in))]
pub fn as_signed(contents: &[u8]) -> Result<i64, WireFault>
    ensures { Gives (λ z. Signed z) result (contents_as 3 contents.now) }
{
    if !has_length_of(PrimitiveType::Signed, contents.len()) {
        return Err(WireFault::BadLength);
    }
    Ok(signed_of(contents))
}

/// The contents of a Boolean after a context tag, one octet (clause 20.2.3). BadLength for any
/// other length, BadContents unless the octet is 0 or 1.
#[tactic(auto, unfolding(crate::specs::Reading::contents_as))]
pub fn as_boolean(contents: &[u8]) -> Result<bool, WireFault>
    ensures { Gives (λ b. Boolean b) result (contents_as 1 contents.now) }
{
    match contents {
        [flag] => {
            if *flag > 1 {
                return Err(WireFault::BadContents);
            }
            Ok(*flag == 1)
        }
        _ => Err(WireFault::BadLength),
    }
}

/// The contents of an Enumerated after a context tag, 1 to 8 octets (clause 20.2.11). BadLength
/// for any other length, BadContents for a number of 2^32 and more.
#[tactic(auto, unfolding(crate::specs::Reading::contents_as, crate::specs::Reading::value_in))]
pub fn as_enumerated(contents: &[u8]) -> Result<u32, WireFault>
    ensures { Gives (λ n. Enumerated n) result (contents_as 9 contents.now) }
{
    if !has_length_of(PrimitiveType::Enumerated, contents.len()) {
        return Err(WireFault::BadLength);
    }
    let number = unsigned_of(contents);
    if number > 4294967295 {
        return Err(WireFault::BadContents);
    }
    Ok(number as u32)
}

/// The contents of a Bit String after a context tag (clause 20.2.10): how many bits of the last
/// octet are unused, and the octets, the first bit the highest of the first octet. BadLength if
/// there are no contents, BadContents for more than 7 unused bits, or for any if no octet follows.
#[tactic(auto, unfolding(crate::specs::Reading::contents_as, crate::specs::Reading::value_in))]
pub fn as_bits(contents: &[u8]) -> Result<(u8, &[u8]), WireFault>
    ensures exact { Gives (λ x. Bits (take (8 * length x.1.now - x.0) (bits_of x.1.now))) result
        (contents_as 8 contents.now) }
    ensures unused { IfOk result (λ x. (x.0 ≤ 7) × (x.0 ≤ 8 * length x.1.now)) }
{
    match contents {
        [] => Err(WireFault::BadLength),
        [unused, octets @ ..] => {
            if *unused > 7 || (octets.is_empty() && *unused > 0) {
                return Err(WireFault::BadContents);
            }
            Ok((*unused, octets))
        }
    }
}

/// The contents of an Object Identifier after a context tag, four octets (clause 20.2.14).
/// BadLength for any other length.
#[tactic(auto, unfolding(crate::specs::Reading::contents_as, crate::specs::Reading::value_in))]
pub fn as_object(contents: &[u8]) -> Result<ObjectId, WireFault>
    ensures { Gives (λ o. Object o) result (contents_as 12 contents.now) }
{
    if !has_length_of(PrimitiveType::ObjectIdentifier, contents.len()) {
        return Err(WireFault::BadLength);
    }
    Ok(ObjectId::of_number(unsigned_of(contents) as u32))
}
