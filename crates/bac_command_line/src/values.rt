//! What the text of one word says, by the rules of all tools.

ghost use Rattle.std.specs.Prelude.{◌≡◌};
ghost use Rattle.bac_command_line.specs.Addresses.{address_in};
ghost use Rattle.bac_command_line.specs.Numbers.{number_in};

use crate::address::address;
use crate::numbers::{number, octet};
use bac_wire::Address;

/// A.B.C.D or A.B.C.D:PORT: four octets of the host, two of the port, which is 47808 if none is
/// named.
pub fn read_address(text: &str) -> Option<Address>
    ensures { result ≡ address_in text.now }
{
    address(text.as_bytes())
}

/// A number of 1 to 10 digits, from `low` to `high`.
pub fn read_number(text: &str, low: u32, high: u32) -> Option<u32>
    ensures { result ≡ number_in low high text.now }
{
    number(text.as_bytes(), low, high)
}

/// The same, if an octet does.
pub fn read_octet(text: &str, low: u8, high: u8) -> Option<u8>
    ensures { result ≡ number_in low high text.now }
{
    octet(text.as_bytes(), low, high)
}
