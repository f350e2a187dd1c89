//! Tags on one level: whole tags, and the tags that open and close a level (clause 20.2.1.3.2).

ghost use Rattle.std.specs.Prelude.{◌≡◌, true, ◌+◌, ◌≤◌, ℕ, List, ◌++◌, length, drop, slice_index};
ghost use Rattle.std.specs.Prelude.{IfOk, IfSome, IsOkAnd};
ghost use Rattle.bac_wire.specs.Chain.{Gives};
ghost use Rattle.bac_wire.specs.Spelling.{IsTag};
ghost use Rattle.bac_wire.specs.Level.{token_at, close_at, IsLevel, IsPassed, EndsAt};

use crate::fault::WireFault;
use crate::primitive_type::PrimitiveType;
use crate::tag::{Mark, is_context_tag, length_of, number_of, octet_of, octets_of};

/// A whole tag with its contents, or one that opens or closes a level.
#[derive(Clone, Copy, Debug)]
pub enum Token {
    Whole,
    Open,
    Close(u8),
}

/// The first tag, with its contents if it has any, and the octets after it.
#[tactic(auto, unfolding(crate::specs::Level::token_at))]
fn token_of(bytes: &[u8]) -> Result<(Token, &[u8]), WireFault>
    ensures { Gives (λ x. (x.0, x.1.now)) result (token_at bytes.now) }
{
    let (first, rest) = octet_of(bytes)?;
    let context = is_context_tag(first);
    if !context && first % 8 > 5 {
        return Err(WireFault::BadTag);
    }
    let (tag, rest) = number_of(first, rest)?;
    if first % 8 == Mark::Opening.bits() {
        return Ok((Token::Open, rest));
    }
    if first % 8 == Mark::Closing.bits() {
        return Ok((Token::Close(tag), rest));
    }
    if !context && tag == PrimitiveType::Boolean.number() {
        return Ok((Token::Whole, rest));
    }
    let (len, rest) = length_of(first % 8, rest)?;
    let (_, rest) = octets_of(len, rest)?;
    Ok((Token::Whole, rest))
}

/// How many octets come before the closing tag of this number that ends the constructed data
/// (clause 20.2.1.3.2). BadTag if the matching closing tag has another number, or a tag can't be
/// read; Ended if octets are missing. The numbers of the tags inside are not compared.
pub fn octets_to_close(bytes: &[u8], wanted: u8) -> Result<usize, WireFault>
    // Before it come whole tags, and each level that they open is closed.
    ensures found { IfOk result (EndsAt wanted bytes.now) }
    // If such tags come before it, it is found.
    ensures only { (inside close after : List ℕ) → IsLevel inside → IsTag 8 wanted 7 close
        → bytes.now ≡ inside ++ (close ++ after) → IsOkAnd result (λ n. n ≡ length inside) }
    // Which fault it is.
    ensures exact { Gives (λ n. drop n bytes.now) result
        (close_at (length bytes.now + 1) 0 wanted bytes.now) }
{
    count_to_close(bytes, wanted)
}

/// Whether a date and a time between an opening and a closing tag 0 are next, as at the front of
/// each record of a log: four tags in twelve octets.
#[inline(always)]
fn is_stamp_next(bytes: &[u8]) -> bool
    ensures { result ≡ true → (12 ≤ length bytes.now) × (slice_index bytes.now 0 ≡ 14)
        × (slice_index bytes.now 1 ≡ 164) × (slice_index bytes.now 6 ≡ 180)
        × (slice_index bytes.now 11 ≡ 15) }
{
    match bytes {
        [open, date, _, _, _, _, time, _, _, _, _, close, ..] => {
            if *open != 0x0e || *date != 0xa4 || *time != 0xb4 || *close != 0x0f {
                return false;
            }
            true
        }
        _ => false,
    }
}

/// How many octets a datum at the front takes if it is one of at most four octets after a context
/// tag of one, between an opening and a closing tag 1, as behind the stamp of most records of a
/// log: three tags.
#[inline(always)]
fn datum_len(bytes: &[u8]) -> Option<usize>
    ensures { IfSome result (λ n. IsPassed n bytes.now) }
{
    match bytes {
        [open, head, rest @ ..] => {
            let len = (*head % 8) as usize;
            if *open != 0x1e || *head / 8 % 2 == 0 || *head >= 240 || len > 4 || len >= rest.len() {
                return None;
            }
            if rest[len] != 0x1f {
                return None;
            }
            Some(len + 3)
        }
        _ => None,
    }
}

/// Whether status flags are next: two octets after a context tag 2 of one octet.
#[inline(always)]
fn are_flags_next(bytes: &[u8]) -> bool
    ensures { result ≡ true → IsPassed 3 bytes.now }
{
    match bytes {
        [head, _, _, ..] => *head == 0x2a,
        _ => false,
    }
}

/// How many octets such a datum takes, with the status flags behind it if there are any.
#[inline(always)]
fn logged_len(bytes: &[u8]) -> Option<usize>
    ensures { IfSome result (λ n. IsPassed n bytes.now) }
{
    let len = datum_len(bytes)?;
    if are_flags_next(&bytes[len..]) {
        return Some(len + 3);
    }
    Some(len)
}

/// Goes from tag to tag, and counts the levels that are open. The four tags of a stamp are passed
/// over in one look, and so are those of most data, with their status flags.
fn count_to_close(bytes: &[u8], wanted: u8) -> Result<usize, WireFault>
    ensures within { IfOk result (λ n. n ≤ length bytes.now) }
    ensures exact { Gives (λ n. drop n bytes.now) result
        (close_at (length bytes.now + 1) 0 wanted bytes.now) }
{
    let mut at: usize = 0;
    let mut depth: usize = 0;
    loop {
        if is_stamp_next(&bytes[at..]) {
            at += 12;
            continue;
        }
        if let Some(len) = logged_len(&bytes[at..]) {
            at += len;
            continue;
        }
        let (token, after) = token_of(&bytes[at..])?;
        match token {
            Token::Whole => {}
            Token::Open => depth += 1,
            Token::Close(number) => {
                if depth == 0 {
                    if number == wanted {
                        return Ok(at);
                    }
                    return Err(WireFault::BadTag);
                }
                depth -= 1;
            }
        }
        at = bytes.len() - after.len();
    }
}
