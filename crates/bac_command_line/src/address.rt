//! An address of BACnet/IP: a host, and a port or the standard's own (Annex J).

ghost use Rattle.std.specs.Prelude.{◌≡◌, ◌<◌, ◌==◌, length, option_map, position, IfSome};
ghost use Rattle.bac_command_line.specs.Addresses.{cut, host_in, address_in};

use crate::numbers::{octet, short};
use bac_wire::Address;

/// The port if none is named.
const BACNET_PORT: u16 = 0xbac0;

/// The place of the first such octet.
fn place(word: &[u8], mark: u8) -> Option<usize>
    ensures value { result ≡ position (λ c. c == mark) word.now }
    ensures bound { IfSome result (λ i. i < length word.now) }
{
    word.iter().position(|c| *c == mark)
}

/// What stands before and after the first such octet.
pub(crate) fn cut(word: &[u8], mark: u8) -> Option<(&[u8], &[u8])>
    ensures { option_map (λ x. (x.0.now, x.1.now)) result ≡ cut mark word.now }
{
    match place(word, mark) {
        Some(at) => Some((&word[..at], &word[at + 1..])),
        None => None,
    }
}

/// The host A.B.C.D with this port.
#[tactic(auto, unfolding(crate::specs::Addresses::host_in))]
fn host(port: u16, word: &[u8]) -> Option<Address>
    ensures { result ≡ host_in port word.now }
{
    let (a, rest) = cut(word, b'.')?;
    let (b, rest) = cut(rest, b'.')?;
    let (c, d) = cut(rest, b'.')?;
    let a = octet(a, 0, 255)?;
    let b = octet(b, 0, 255)?;
    let c = octet(c, 0, 255)?;
    let d = octet(d, 0, 255)?;
    let [high, low] = port.to_be_bytes();
    Some([a, b, c, d, high, low])
}

/// A.B.C.D or A.B.C.D:PORT.
#[tactic(auto, unfolding(crate::specs::Addresses::address_in))]
pub(crate) fn address(word: &[u8]) -> Option<Address>
    ensures { result ≡ address_in word.now }
{
    match cut(word, b':') {
        Some((word, port)) => host(short(port, 1, 65535)?, word),
        None => host(BACNET_PORT, word),
    }
}
