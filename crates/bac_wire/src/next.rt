//! Which tag is next (clause 20.2.1), asked if a parameter may be left out.

ghost use Rattle.std.specs.Prelude.{◌≡◌};
ghost use Rattle.bac_wire.specs.Next.{next_tag, value_next, opening_next, other_next};
ghost use Rattle.bac_wire.specs.PrimitiveType.{type_number};

use crate::primitive_type::PrimitiveType;

/// The low four bits of the next tag's first octet, which state its class and kind, and its number,
/// if the octets that state them are there.
fn next_tag(bytes: &[u8]) -> Option<(u8, u8)>
    ensures { result ≡ next_tag bytes.now }
{
    match bytes {
        [] => None,
        [first, rest @ ..] => {
            if *first < 240 {
                return Some((*first % 16, *first / 16));
            }
            match rest {
                [] => None,
                [own, ..] => {
                    if *own == 255 {
                        return None;
                    }
                    Some((*first % 16, *own))
                }
            }
        }
    }
}

/// Whether a value after the context tag of this number is next. Its length isn't looked at.
pub fn is_value_next(bytes: &[u8], number: u8) -> bool
    ensures { result ≡ value_next number bytes.now }
{
    match next_tag(bytes) {
        Some((low, tag)) => 8 <= low && low <= 13 && tag == number,
        None => false,
    }
}

/// Whether the opening tag of this number is next.
pub fn is_opening_next(bytes: &[u8], number: u8) -> bool
    ensures { result ≡ opening_next number bytes.now }
{
    match next_tag(bytes) {
        Some((low, tag)) => low == 14 && tag == number,
        None => false,
    }
}

/// Whether an application tag is next whose number is that of another type.
pub fn is_other_type_next(bytes: &[u8], wanted: PrimitiveType) -> bool
    ensures { result ≡ other_next (type_number wanted) bytes.now }
{
    match next_tag(bytes) {
        Some((low, tag)) => low <= 5 && tag != wanted.number(),
        None => false,
    }
}
