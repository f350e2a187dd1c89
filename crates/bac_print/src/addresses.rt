//! The text of an address of BACnet/IP (Annex J.1.2).

ghost use Rattle.std.specs.Prelude.{◌≡◌, ◌++◌, OnOk, decimal};
ghost use Rattle.bac_print.specs.Addresses.{address_text};

use crate::numbers::push_number;
use bac_wire::Address;
use std::alloc::AllocError;

/// Appends a number, and what stands after it.
fn push_before(text: &mut Vec<u8>, n: u64, mark: &[u8]) -> Result<(), AllocError>
    ensures { OnOk result (text.new.items ≡ text.old.items ++ (decimal n ++ mark.now)) }
{
    push_number(text, n)?;
    text.extend_from_slice(mark)
}

/// Appends `A.B.C.D:PORT` of four octets of IPv4 address and two of port, high octet first.
#[tactic(auto, unfolding(crate::specs::Addresses::address_text))]
pub fn push_address(text: &mut Vec<u8>, address: Address) -> Result<(), AllocError>
    ensures { OnOk result (text.new.items ≡ text.old.items ++ address_text address) }
{
    let [a, b, c, d, high, low] = address;
    push_before(text, u64::from(a), b".")?;
    push_before(text, u64::from(b), b".")?;
    push_before(text, u64::from(c), b".")?;
    push_before(text, u64::from(d), b":")?;
    push_number(text, u64::from(high) * 256 + u64::from(low))
}
