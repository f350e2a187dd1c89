//! Heads of tags: the tag number and the length (clause 20.2.1), read and written.

ghost use Rattle.std.specs.Prelude.{◌≡◌, ◌<◌, ◌≤◌, length};
ghost use Rattle.bac_wire.specs.Chain.{Gives};
ghost use Rattle.bac_wire.specs.Reading.{octet_at, octets_at, number_at, length_at, is_context};
ghost use Rattle.bac_wire.specs.Tag.{class_bits};
ghost use Rattle.bac_wire.specs.Canon.{tag_octets, head_octets};

use crate::fault::WireFault;
use crate::primitive::unsigned_of;
use arrayvec::ArrayVec;

/// Who numbers a tag: the standard, for all primitive types, or the production that has the tag
/// (clause 20.2.1.1).
#[derive(Clone, Copy)]
pub(crate) enum Class {
    Application,
    Context,
}

/// A tag that opens or closes a level (clause 20.2.1.3.2).
#[derive(Clone, Copy)]
pub(crate) enum Mark {
    Opening,
    Closing,
}

impl Class {
    ghost use Rattle.bac_wire.specs.Tag.{class_bits};

    /// Bit 3 of a tag's first octet.
    pub(crate) fn bits(self) -> u8
        ensures value { result ≡ class_bits self }
        ensures bound { result ≤ 8 }
    {
        match self {
            Class::Application => 0,
            Class::Context => 8,
        }
    }
}

impl Mark {
    ghost use Rattle.bac_wire.specs.Tag.{mark_bits};

    /// The three low bits of a tag's first octet.
    pub(crate) fn bits(self) -> u8
        ensures value { result ≡ mark_bits self }
        ensures bound { result < 8 }
    {
        match self {
            Mark::Opening => 6,
            Mark::Closing => 7,
        }
    }
}

/// Whether the first octet is that of a context tag.
pub(crate) fn is_context_tag(first: u8) -> bool
    ensures { result ≡ is_context first }
{
    first / 8 % 2 == 1
}

/// The first octet, and those after it.
pub(crate) fn octet_of(bytes: &[u8]) -> Result<(u8, &[u8]), WireFault>
    ensures { Gives (λ x. (x.0, x.1.now)) result (octet_at bytes.now) }
{
    match bytes {
        [] => Err(WireFault::Ended),
        [octet, rest @ ..] => Ok((*octet, rest)),
    }
}

/// So many octets, and those after them.
pub(crate) fn octets_of(count: usize, bytes: &[u8]) -> Result<(&[u8], &[u8]), WireFault>
    ensures { Gives (λ x. (x.0.now, x.1.now)) result (octets_at count bytes.now) }
{
    if bytes.len() < count {
        return Err(WireFault::Ended);
    }
    Ok(bytes.split_at(count))
}

/// The tag number that the first octet states, or the octet after it (clause 20.2.1.2).
#[tactic(auto, unfolding(crate::specs::Reading::number_at))]
pub(crate) fn number_of(first: u8, bytes: &[u8]) -> Result<(u8, &[u8]), WireFault>
    ensures { Gives (λ x. (x.0, x.1.now)) result (number_at first bytes.now) }
{
    if first < 240 {
        return Ok((first / 16, bytes));
    }
    let (own, rest) = octet_of(bytes)?;
    if own == 255 {
        return Err(WireFault::BadTag);
    }
    Ok((own, rest))
}

/// The length that the three low bits state, or the octets after them (clause 20.2.1.3.1).
#[tactic(auto, unfolding(crate::specs::Reading::length_at))]
pub(crate) fn length_of(low: u8, bytes: &[u8]) -> Result<(usize, &[u8]), WireFault>
    ensures { Gives (λ x. (x.0, x.1.now)) result (length_at low bytes.now) }
{
    if low < 5 {
        return Ok((low as usize, bytes));
    }
    let (first, rest) = octet_of(bytes)?;
    if first < 254 {
        return Ok((first as usize, rest));
    }
    let count = if first == 254 { 2 } else { 4 };
    let (size, rest) = octets_of(count, rest)?;
    Ok((unsigned_of(size) as usize, rest))
}

/// The octets of a class, a tag number and three low bits (clauses 20.2.1.1 to 20.2.1.3).
pub(crate) fn tag_of(class: Class, tag: u8, low: u8) -> ArrayVec<u8, 5>
    requires tag { tag ≤ 254 }
    requires low { low < 8 }
    ensures items { result.items ≡ tag_octets (class_bits class) tag low }
    ensures len { length result.items ≤ 2 }
{
    let mut octets = ArrayVec::new();
    if tag < 15 {
        octets.push(16 * tag + class.bits() + low);
    } else {
        octets.push(240 + class.bits() + low);
        octets.push(tag);
    }
    octets
}

/// The octets of a class, a tag number and a length (clause 20.2.1.3.1).
pub(crate) fn head_of(class: Class, tag: u8, len: usize) -> ArrayVec<u8, 5>
    requires tag { tag ≤ 254 }
    requires len { len < 65536 }
    ensures { result.items ≡ head_octets (class_bits class) tag len }
{
    if len < 5 {
        return tag_of(class, tag, len as u8);
    }
    let mut octets = tag_of(class, tag, 5);
    if len < 254 {
        octets.push(len as u8);
    } else {
        let [high, low] = (len as u16).to_be_bytes();
        octets.push(254);
        octets.push(high);
        octets.push(low);
    }
    octets
}
