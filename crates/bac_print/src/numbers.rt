//! Numbers, bits and octets.

ghost use Rattle.std.specs.Prelude.{◌≡◌, ◌++◌, ◌≤◌, ◌-◌, ◌*◌, length, take, decimal, OnOk};
ghost use Rattle.std.specs.Fmt.{signed_decimal};
ghost use Rattle.hex.specs.Hex.{encode_lower};
ghost use Rattle.bac_wire.specs.Number.{bit, octet_bits, bits_of};
ghost use Rattle.bac_print.specs.Numbers.{bit_digit, bit_digits, called, called_hex, called_two};
ghost use Rattle.bac_print.specs.Numbers.{counted, two_digits};

use std::alloc::AllocError;

/// Appends a number in decimal digits.
pub fn push_number(text: &mut Vec<u8>, n: u64) -> Result<(), AllocError>
    ensures { OnOk result (text.new.items ≡ text.old.items ++ decimal n) }
{
    let mut digits = itoa::Buffer::new();
    text.extend_from_slice(digits.format(n).as_bytes())
}

/// Appends a number in decimal digits, after `-` if it is below 0.
pub fn push_signed(text: &mut Vec<u8>, z: i64) -> Result<(), AllocError>
    ensures { OnOk result (text.new.items ≡ text.old.items ++ signed_decimal z) }
{
    let mut digits = itoa::Buffer::new();
    text.extend_from_slice(digits.format(z).as_bytes())
}

/// Appends a number in two decimal digits or more.
pub(crate) fn push_two_digits(text: &mut Vec<u8>, n: u8) -> Result<(), AllocError>
    ensures { OnOk result (text.new.items ≡ text.old.items ++ two_digits n) }
{
    if n < 10 {
        text.extend_from_slice(b"0")?;
    }
    push_number(text, u64::from(n))
}

/// The digit of a bit of an octet, the lowest bit being at place 0.
pub(crate) fn bit_digit(octet: u8, place: u32) -> u8
    requires { place ≤ 7 }
    ensures { result ≡ bit_digit (bit octet place) }
{
    if octet / 2u8.pow(place) % 2 == 1 {
        b'1'
    } else {
        b'0'
    }
}

/// Appends the bits of an octet, the highest first.
fn push_octet_bits(text: &mut Vec<u8>, octet: u8) -> Result<(), AllocError>
    ensures { OnOk result (text.new.items ≡ text.old.items ++ bit_digits (octet_bits octet)) }
{
    text.extend_from_slice(&[
        bit_digit(octet, 7),
        bit_digit(octet, 6),
        bit_digit(octet, 5),
        bit_digit(octet, 4),
        bit_digit(octet, 3),
        bit_digit(octet, 2),
        bit_digit(octet, 1),
        bit_digit(octet, 0),
    ])
}

/// Appends all the bits of octets.
fn push_all_bits(text: &mut Vec<u8>, octets: &[u8]) -> Result<(), AllocError>
    ensures { OnOk result (text.new.items ≡ text.old.items ++ bit_digits (bits_of octets.now)) }
{
    for octet in octets {
        push_octet_bits(text, *octet)?;
    }
    Ok(())
}

/// Appends the bits of octets, but for so many at the end.
pub(crate) fn push_bits(text: &mut Vec<u8>, octets: &[u8], unused: usize) -> Result<(), AllocError>
    requires { unused ≤ 8 * length octets.now }
    ensures { OnOk result (text.new.items ≡ text.old.items
        ++ bit_digits (take (8 * length octets.now - unused) (bits_of octets.now))) }
{
    push_all_bits(text, octets)?;
    text.truncate(text.len() - unused);
    Ok(())
}

/// Appends at most 32 octets in hexadecimal digits of lower case.
fn push_some_hex(text: &mut Vec<u8>, octets: &[u8]) -> Result<(), AllocError>
    requires { length octets.now ≤ 32 }
    ensures { OnOk result (text.new.items ≡ text.old.items ++ encode_lower octets.now) }
{
    let mut room = [0u8; 64];
    let digits = &mut room[..2 * octets.len()];
    match hex::encode_to_slice(octets, digits) {
        Ok(()) => text.extend_from_slice(digits),
        Err(_) => unreachable!(),
    }
}

/// Appends octets in hexadecimal digits of lower case.
pub fn push_hex(text: &mut Vec<u8>, octets: &[u8]) -> Result<(), AllocError>
    ensures { OnOk result (text.new.items ≡ text.old.items ++ encode_lower octets.now) }
{
    let mut rest = octets;
    while !rest.is_empty() {
        let count = rest.len().min(32);
        push_some_hex(text, &rest[..count])?;
        rest = &rest[count..];
    }
    Ok(())
}

/// Appends a word and octets in hexadecimal digits, in brackets.
pub(crate) fn push_called_hex(
    text: &mut Vec<u8>,
    word: &str,
    octets: &[u8],
) -> Result<(), AllocError>
    ensures { OnOk result (text.new.items ≡ text.old.items ++ called_hex word.now octets.now) }
{
    text.extend_from_slice(word.as_bytes())?;
    text.extend_from_slice(b"(")?;
    push_hex(text, octets)?;
    text.extend_from_slice(b")")
}

/// Appends a word and the bits of octets, but for so many at the end, in brackets.
pub(crate) fn push_called_bits(
    text: &mut Vec<u8>,
    word: &str,
    octets: &[u8],
    unused: usize,
) -> Result<(), AllocError>
    requires { unused ≤ 8 * length octets.now }
    ensures { OnOk result (text.new.items ≡ text.old.items
        ++ called word.now
        (bit_digits (take (8 * length octets.now - unused) (bits_of octets.now)))) }
{
    text.extend_from_slice(word.as_bytes())?;
    text.extend_from_slice(b"(")?;
    push_bits(text, octets, unused)?;
    text.extend_from_slice(b")")
}

/// Appends a word and a number, in brackets.
pub(crate) fn push_called_number(text: &mut Vec<u8>, word: &str, n: u64) -> Result<(), AllocError>
    ensures { OnOk result (text.new.items ≡ text.old.items ++ called word.now (decimal n)) }
{
    text.extend_from_slice(word.as_bytes())?;
    text.extend_from_slice(b"(")?;
    push_number(text, n)?;
    text.extend_from_slice(b")")
}

/// Appends a word and two numbers, in brackets.
pub(crate) fn push_called_two(
    text: &mut Vec<u8>,
    word: &str,
    a: u64,
    b: u64,
) -> Result<(), AllocError>
    ensures { OnOk result (text.new.items ≡ text.old.items ++ called_two word.now a b) }
{
    text.extend_from_slice(word.as_bytes())?;
    text.extend_from_slice(b"(")?;
    push_number(text, a)?;
    text.extend_from_slice(b",")?;
    push_number(text, b)?;
    text.extend_from_slice(b")")
}

/// Appends a word and how many things there are that aren't shown.
pub(crate) fn push_counted(text: &mut Vec<u8>, word: &str, n: u64) -> Result<(), AllocError>
    ensures { OnOk result (text.new.items ≡ text.old.items ++ counted word.now n) }
{
    text.extend_from_slice(word.as_bytes())?;
    text.extend_from_slice(b"[")?;
    push_number(text, n)?;
    text.extend_from_slice(b"]")
}
