//! What an answer to ReadProperty tells (clause 15.5): the values of its ACK.

ghost use Rattle.std.specs.Prelude.{◌≡◌, ◌<◌, ◌^◌, ℕ, IfSome, IsNone, IsSomeAnd, List};
ghost use Rattle.bac_wire.specs.OptionChain.{GivesSome};
ghost use Rattle.bac_wire.specs.Primitive.{Chars, Primitive, Unsigned};
ghost use Rattle.bac_wire.specs.Spelling.{Spells};
ghost use Rattle.bac_wire.specs.View.{IsWellFormed, view};
ghost use Rattle.bac_link.specs.Datagrams.{apdu_in};
ghost use Rattle.bac_query.specs.Answers.{Tells, values_in};

use bac_apdu::{Apdu, ReadPropertyAck};
use bac_link::read_datagram;
use bac_wire::{Datagram, Value, read_value};

/// The octets of the values that an ACK has.
pub fn values_in(answer: &Datagram) -> Option<&[u8]>
    ensures { GivesSome (λ values. values.now) result (values_in (apdu_in answer.now)) }
{
    match read_datagram(answer.octets()) {
        Some(Apdu::Complex { parameters, .. }) => match ReadPropertyAck::read(parameters) {
            Some(ack) => Some(ack.values),
            None => None,
        },
        _ => None,
    }
}

/// The one value that octets are.
pub(crate) fn only_value(octets: &[u8]) -> Option<Value<'_>>
    ensures found { IfSome result (λ value. Spells octets.now (view value)) }
    ensures only { (value : Primitive) → Spells octets.now value
        → IsSomeAnd result (λ found. view found ≡ value) }
    ensures well_formed { IfSome result IsWellFormed }
{
    let Ok((value, len)) = read_value(octets) else {
        return None;
    };
    if len == octets.len() {
        Some(value)
    } else {
        None
    }
}

/// The one value that an answer has.
fn value_in(answer: &Datagram) -> Option<Value<'_>>
    ensures found { IfSome result (λ value. Tells answer.now (view value)) }
    ensures only { (value : Primitive) → Tells answer.now value
        → IsSomeAnd result (λ found. view found ≡ value) }
{
    only_value(values_in(answer)?)
}

/// The character set and the octets of the text that an answer has.
pub fn text_in(answer: &Datagram) -> Option<(u8, &[u8])>
    ensures found { IfSome result (λ it. Tells answer.now (Chars it.0 it.1.now)) }
    ensures none { IsNone result → (set : ℕ) (octets : List ℕ) → Tells answer.now (Chars set octets)
        → ⊥ }
{
    let Some(value) = value_in(answer) else {
        return None;
    };
    let Value::Chars { set, octets } = value else {
        return None;
    };
    Some((set, octets))
}

/// The number of 32 bits that an answer has.
pub fn number_in(answer: &Datagram) -> Option<u32>
    ensures found { IfSome result (λ number. Tells answer.now (Unsigned number)) }
    ensures small { IfSome result (λ number. number < 2 ^ 32) }
    ensures none { IsNone result → (number : ℕ) → number < 2 ^ 32
        → Tells answer.now (Unsigned number) → ⊥ }
{
    let Some(value) = value_in(answer) else {
        return None;
    };
    let Value::Unsigned(number) = value else {
        return None;
    };
    if number > 4294967295 {
        return None;
    }
    Some(number as u32)
}
