//! Numbers in decimal digits.

ghost use Rattle.std.specs.Char.{is_ascii_digit};
ghost use Rattle.std.specs.List.{list_all};
ghost use Rattle.std.specs.Prelude.{◌≡◌, ◌≤◌, length, true, false};
ghost use Rattle.bac_command_line.specs.Numbers.{value_of, digits_in, is_long, number_in};
ghost use Rattle.bac_command_line.specs.Numbers.{unsigned_in};
ghost use Rattle.bac_command_line.specs.Numbers.{signed_in, with_sign};

/// What the digits of a word say, of which there are at most twenty.
fn value(word: &[u8]) -> Option<u128>
    requires { length word.now ≤ 20 }
    ensures { result ≡ value_of 0 word.now }
{
    let mut n = 0u128;
    for c in word {
        if !c.is_ascii_digit() {
            return None;
        }
        n = 10 * n + u128::from(*c - b'0');
    }
    Some(n)
}

/// The number that 1 to `most` digits say.
fn digits_in(word: &[u8], most: usize) -> Option<u128>
    requires { most ≤ 20 }
    ensures { result ≡ digits_in most word.now }
{
    if word.is_empty() || most < word.len() {
        return None;
    }
    value(word)
}

/// Whether all are decimal digits.
pub(crate) fn are_digits(word: &[u8]) -> bool
    ensures { result ≡ list_all is_ascii_digit word.now }
{
    for c in word {
        if !c.is_ascii_digit() {
            return false;
        }
    }
    true
}

/// Whether a word is digits alone, and more than a number has.
pub(crate) fn is_long(word: &[u8]) -> bool
    ensures { result ≡ is_long word.now }
{
    word.len() > 10 && are_digits(word)
}

/// A number of 1 to 10 digits, from `low` to `high`.
#[tactic(auto, unfolding(crate::specs::Numbers::number_in))]
pub(crate) fn number(word: &[u8], low: u32, high: u32) -> Option<u32>
    ensures { result ≡ number_in low high word.now }
{
    let n = digits_in(word, 10)?;
    if u128::from(low) <= n && n <= u128::from(high) {
        Some(n as u32)
    } else {
        None
    }
}

/// The same, if 16 bits do.
#[tactic(auto, unfolding(crate::specs::Numbers::number_in))]
pub(crate) fn short(word: &[u8], low: u16, high: u16) -> Option<u16>
    ensures { result ≡ number_in low high word.now }
{
    let n = digits_in(word, 10)?;
    if u128::from(low) <= n && n <= u128::from(high) {
        Some(n as u16)
    } else {
        None
    }
}

/// The same, if an octet does.
#[tactic(auto, unfolding(crate::specs::Numbers::number_in))]
pub(crate) fn octet(word: &[u8], low: u8, high: u8) -> Option<u8>
    ensures { result ≡ number_in low high word.now }
{
    let n = digits_in(word, 10)?;
    if u128::from(low) <= n && n <= u128::from(high) {
        Some(n as u8)
    } else {
        None
    }
}

/// A number of 1 to 20 digits, if it fits 64 bits.
pub(crate) fn unsigned(word: &[u8]) -> Option<u64>
    ensures { result ≡ unsigned_in word.now }
{
    let n = digits_in(word, 20)?;
    if n > 0xffff_ffff_ffff_ffff {
        return None;
    }
    Some(n as u64)
}

/// A number that isn't below zero, if it fits 64 bits with a sign.
fn natural(word: &[u8]) -> Option<i64>
    ensures { result ≡ with_sign false (digits_in 20 word.now) }
{
    let n = digits_in(word, 20)?;
    if n > 0x7fff_ffff_ffff_ffff {
        return None;
    }
    Some(n as i64)
}

/// The negative of a number, if it fits 64 bits with a sign.
fn negative(word: &[u8]) -> Option<i64>
    ensures { result ≡ with_sign true (digits_in 20 word.now) }
{
    let n = digits_in(word, 20)?;
    if n > 0x8000_0000_0000_0000 {
        return None;
    }
    Some((0 - n as i128) as i64)
}

/// An integer of 1 to 20 digits, which `-` may precede, if it fits 64 bits with a sign.
pub(crate) fn signed(word: &[u8]) -> Option<i64>
    ensures { result ≡ signed_in word.now }
{
    if word.is_empty() {
        return None;
    }
    if word[0] == b'-' {
        negative(&word[1..])
    } else {
        natural(word)
    }
}
