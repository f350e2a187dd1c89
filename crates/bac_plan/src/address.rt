//! The text of an address of BACnet/IP (Annex J.1.2): A.B.C.D:PORT.

ghost use Rattle.std.specs.Prelude.{◌≡◌, ◌≤◌, ◌<◌, ◌==◌, length, option_map, position, IfSome};
ghost use Rattle.bac_plan.specs.Addresses.{cut, digits_in, host_in, number_in, peer_in, value_of};

use bac_wire::Address;

/// How many digits a number of sixteen bits has at most.
const MOST_DIGITS: usize = 5;

// What the digits of a text say.
fn value(text: &[u8]) -> Option<u32>
    requires { length text.now ≤ 5 }
    ensures { result ≡ value_of 0 text.now }
{
    let mut number = 0u32;
    for digit in text {
        if !digit.is_ascii_digit() {
            return None;
        }
        number = 10 * number + u32::from(*digit - b'0');
    }
    Some(number)
}

// The number that one to five digits say.
fn digits_in(text: &[u8]) -> Option<u32>
    ensures { result ≡ digits_in text.now }
{
    if text.is_empty() || MOST_DIGITS < text.len() {
        return None;
    }
    value(text)
}

// A number of an octet.
#[tactic(auto, unfolding(crate::specs::Addresses::number_in))]
fn octet(text: &[u8]) -> Option<u8>
    ensures { result ≡ number_in 255 text.now }
{
    let number = digits_in(text)?;
    if number <= 255 {
        Some(number as u8)
    } else {
        None
    }
}

// A number of two octets.
#[tactic(auto, unfolding(crate::specs::Addresses::number_in))]
fn short(text: &[u8]) -> Option<u16>
    ensures { result ≡ number_in 65535 text.now }
{
    let number = digits_in(text)?;
    if number <= 65535 {
        Some(number as u16)
    } else {
        None
    }
}

// The place of the first such octet.
fn place(text: &[u8], mark: u8) -> Option<usize>
    ensures value { result ≡ position (λ c. c == mark) text.now }
    ensures bound { IfSome result (λ i. i < length text.now) }
{
    text.iter().position(|c| *c == mark)
}

// What stands before and behind the first such octet.
fn cut(text: &[u8], mark: u8) -> Option<(&[u8], &[u8])>
    ensures { option_map (λ x. (x.0.now, x.1.now)) result ≡ cut mark text.now }
{
    match place(text, mark) {
        Some(at) => Some((&text[..at], &text[at + 1..])),
        None => None,
    }
}

// The host A.B.C.D with this port.
#[tactic(auto, unfolding(crate::specs::Addresses::host_in))]
fn host(port: u16, text: &[u8]) -> Option<Address>
    ensures { result ≡ host_in port text.now }
{
    let (a, rest) = cut(text, b'.')?;
    let (b, rest) = cut(rest, b'.')?;
    let (c, d) = cut(rest, b'.')?;
    let a = octet(a)?;
    let b = octet(b)?;
    let c = octet(c)?;
    let d = octet(d)?;
    let [high, low] = port.to_be_bytes();
    Some([a, b, c, d, high, low])
}

/// Four octets of IPv4 address and two of port, high octet first, that a text A.B.C.D:PORT says.
#[tactic(auto, unfolding(crate::specs::Addresses::peer_in))]
pub(crate) fn peer_in(text: &[u8]) -> Option<Address>
    ensures { result ≡ peer_in text.now }
{
    let (text, port) = cut(text, b':')?;
    host(short(port)?, text)
}
