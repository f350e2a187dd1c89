//! The value to write: TAG and `--value`.

ghost use Rattle.std.specs.Prelude.{◌≡◌, IfOk, Some, option_map};
ghost use Rattle.bac_command_line.specs.Given.{is_tag, boolean_in, real_in, value_in, given_in};

use crate::job::Given;
use crate::name::Name;
use crate::numbers::{number, octet, signed, unsigned};
use hex::FromHex;
use std::alloc::{AllocError, Global};

/// The most octets that a text may have.
const MAX_TEXT: usize = 1400;

/// Values of this application tag can be given.
pub(crate) fn is_tag(tag: u8) -> bool
    ensures { result ≡ is_tag tag }
{
    tag <= 4 || tag == 7 || tag == 9
}

/// 0 or 1.
fn boolean(word: &[u8]) -> Option<bool>
    ensures { result ≡ boolean_in word.now }
{
    Some(octet(word, 0, 1)? == 1)
}

/// Four octets in eight hexadecimal digits, in either case.
fn real(word: &[u8]) -> Option<[u8; 4]>
    ensures { result ≡ real_in word.now }
{
    <[u8; 4] as FromHex>::from_hex(word).ok()
}

/// What a word says as a value of this tag that needs no memory.
fn value(tag: u8, word: &[u8]) -> Option<Given>
    ensures { result ≡ value_in tag word.now }
{
    match tag {
        1 => Some(Given::Boolean(boolean(word)?)),
        2 => Some(Given::Unsigned(unsigned(word)?)),
        3 => Some(Given::Signed(signed(word)?)),
        4 => Some(Given::Real4(real(word)?)),
        9 => Some(Given::Enumerated(number(word, 0, u32::MAX)?)),
        _ => None,
    }
}

/// A text to write.
fn text(alloc: Global, word: &str) -> Result<Option<Given>, AllocError>
    ensures { IfOk result (λ given. given ≡ given_in 7 (Some word.now)) }
{
    if word.len() > MAX_TEXT {
        return Ok(None);
    }
    let text = Name::of(String::from_str(alloc, word)?);
    Ok(Some(Given::Text(text)))
}

/// The value of this tag that `--value` says; none of tag 0, Null.
pub(crate) fn given(alloc: Global, tag: u8, word: Option<&str>) -> Result<Option<Given>, AllocError>
    ensures { IfOk result (λ given. given ≡ given_in tag (option_map (λ s. s.now) word.entry)) }
{
    match word {
        None if tag == 0 => Ok(Some(Given::Null)),
        None => Ok(None),
        Some(word) if tag == 7 => text(alloc, word),
        Some(word) => Ok(value(tag, word.as_bytes())),
    }
}
