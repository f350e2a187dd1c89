//! Texts of a device, in Unicode.

ghost use Rattle.std.specs.Prelude.{◌≡◌, ◌+◌, ◌*◌, ◌<◌, ◌∷◌, IfOk, IfSome, IfNone, length};
ghost use Rattle.std.specs.Prelude.{encode_utf8_all};
ghost use Rattle.std.specs.Char.{IsScalar};
ghost use Rattle.std.specs.String.{string_bytes};
ghost use Rattle.bac_print.specs.Texts.{IsPairsText, IsTextOf};

use std::alloc::{AllocError, Global};

/// UTF-8, as ISO 10646 has it (clause 20.2.9).
const UTF_8: u8 = 0;

const UCS_2: u8 = 4;

const ISO_8859_1: u8 = 5;

/// The character of this number.
fn character_of(high: u8, low: u8) -> Option<char>
    ensures found { IfSome result (λ c. (c ≡ high * 256 + low) × IsScalar c) }
    ensures none { IfNone result (IsScalar (high * 256 + low) → ⊥) }
{
    char::from_u32(u32::from(high) * 256 + u32::from(low))
}

/// The first two octets and the others.
fn first_pair(octets: &[u8]) -> Option<(u8, u8, &[u8])>
    ensures some { IfSome result (λ it. octets.now ≡ it.0 ∷ it.1 ∷ it.2.now) }
    ensures none { IfNone result (length octets.now < 2) }
{
    let [high, low, after @ ..] = octets else {
        return None;
    };
    Some((*high, *low, after))
}

/// The text of characters of two octets each, if each is one of Unicode.
fn of_pairs(alloc: Global, octets: &[u8]) -> Result<Option<String>, AllocError>
    ensures { IfOk result (IsPairsText octets.now) }
{
    let mut text = String::new(alloc);
    let mut rest = octets;
    for taken in 0..octets.len() {
        let Some((high, low, after)) = first_pair(rest) else {
            return Ok(if rest.is_empty() { Some(text) } else { None });
        };
        let Some(character) = character_of(high, low) else {
            return Ok(None);
        };
        text.push(character)?;
        rest = after;
    }
    Ok(Some(text))
}

/// The text of characters of an octet each.
fn of_octets(alloc: Global, octets: &[u8]) -> Result<String, AllocError>
    ensures { IfOk result (λ text. string_bytes text ≡ encode_utf8_all octets.now) }
{
    let mut text = String::new(alloc);
    for octet in octets {
        text.push(char::from(*octet))?;
    }
    Ok(text)
}

/// The text of a Character String in this character set: UTF-8 (0), UCS-2 (4) or ISO 8859-1 (5).
/// None of another set, or if the octets are no text of it.
pub fn text_of(alloc: Global, set: u8, octets: &[u8]) -> Result<Option<String>, AllocError>
    ensures { IfOk result (IsTextOf set octets.now) }
{
    match set {
        UTF_8 => match std::str::from_utf8(octets) {
            Ok(text) => Ok(Some(String::from_str(alloc, text)?)),
            Err(_) => Ok(None),
        },
        UCS_2 => of_pairs(alloc, octets),
        ISO_8859_1 => Ok(Some(of_octets(alloc, octets)?)),
        _ => Ok(None),
    }
}
