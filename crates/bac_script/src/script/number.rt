//! Numbers in decimal digits.

ghost use Rattle.std.specs.Prelude.{◌≡◌, ◌≤◌, ◌^◌, length, true, false};
ghost use Rattle.bac_script.specs.Script.Number.{value_of, number_in, below, integer_in, with_sign};

/// What the digits of a word say, of which there are at most ten.
fn value(word: &[u8]) -> Option<u64>
    requires { length word.now ≤ 10 }
    ensures { result ≡ value_of 0 word.now }
{
    let mut n = 0u64;
    for c in word {
        if !c.is_ascii_digit() {
            return None;
        }
        n = 10 * n + u64::from(*c - b'0');
    }
    Some(n)
}

/// The number that 1 to 10 digits say.
fn number_in(word: &[u8]) -> Option<u64>
    ensures { result ≡ number_in word.now }
{
    if word.is_empty() || 10 < word.len() {
        return None;
    }
    value(word)
}

/// The number that 1 to 10 digits say, if it fits 32 bits.
pub(crate) fn u32_in(word: &[u8]) -> Option<u32>
    ensures { result ≡ below (2 ^ 32) (number_in word.now) }
{
    u32::try_from(number_in(word)?).ok()
}

/// The number that 1 to 10 digits say, if it fits 16 bits.
pub(crate) fn u16_in(word: &[u8]) -> Option<u16>
    ensures { result ≡ below (2 ^ 16) (number_in word.now) }
{
    u16::try_from(number_in(word)?).ok()
}

/// A number of 32 bits that is not below zero.
fn natural(word: &[u8]) -> Option<i32>
    ensures { result ≡ with_sign false (number_in word.now) }
{
    let number = number_in(word)?;
    if number > 0x7fff_ffff {
        return None;
    }
    Some(number as i32)
}

/// The negative of a number, if it fits 32 bits.
fn negative(word: &[u8]) -> Option<i32>
    ensures { result ≡ with_sign true (number_in word.now) }
{
    let number = number_in(word)?;
    if number > 0x8000_0000 {
        return None;
    }
    Some((0 - number as i64) as i32)
}

/// The integer that 1 to 10 digits say, which `-` may precede, if it fits 32 bits.
pub(crate) fn i32_in(word: &[u8]) -> Option<i32>
    ensures { result ≡ integer_in word.now }
{
    if word.is_empty() {
        return None;
    }
    if word[0] == b'-' {
        negative(&word[1..])
    } else {
        natural(word)
    }
}
