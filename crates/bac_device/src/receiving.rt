//! What reaches a device (Annex J, clause 6).

ghost use Rattle.std.specs.Prelude.{◌≡◌};
ghost use Rattle.bac_wire.specs.OptionChain.{GivesSome};
ghost use Rattle.bac_apdu.specs.Npdu.{header_of, maybe_place_of};
ghost use Rattle.bac_device.specs.Receiving.{heard_at, is_answerable, is_heard, nak_code};
ghost use Rattle.bac_device.specs.Views.{heard_of};

use bac_apdu::{Apdu, Far, Npdu, read_apdu, read_npdu};

/// The network number that stands for all networks (clause 6.2.2).
const ALL_NETWORKS: u16 = 0xffff;

/// The most octets of an address on another network.
const LONGEST_ADDRESS: usize = 15;

/// An APDU, whether it went to all devices, and the place behind a router that it came from.
#[derive(Clone, Copy)]
pub(crate) struct Heard<'a> {
    pub(crate) to_all: bool,
    pub(crate) source: Option<Far<'a>>,
    pub(crate) apdu: Apdu<'a>,
}

/// The code of the result that refuses a function of broadcast management (clause J.2.1).
pub(crate) fn nak_code(function: u8) -> Option<u8>
    ensures { result ≡ nak_code function }
{
    match function {
        0x01 => Some(0x10),
        0x02 => Some(0x20),
        0x05 => Some(0x30),
        0x06 => Some(0x40),
        0x08 => Some(0x50),
        0x09 => Some(0x60),
        _ => None,
    }
}

/// Whether an answer can go to where a header comes from: this network, or a place behind a router.
fn is_answerable(source: Option<Far>) -> bool
    ensures { result ≡ is_answerable (maybe_place_of source.entry) }
{
    match source {
        Some(far) => {
            1 <= far.net
                && far.net <= 65534
                && 1 <= far.address.len()
                && far.address.len() <= LONGEST_ADDRESS
        }
        None => true,
    }
}

/// Whether a device takes what stands after a header (clause 6): no network message, from where an
/// answer can go, and for it or for all devices.
fn is_heard(header: &Npdu) -> bool
    ensures { result ≡ is_heard (header_of header.now) }
{
    let for_all = match header.dest {
        Some(far) => far.net == ALL_NETWORKS && far.address.is_empty(),
        None => true,
    };
    !header.network && is_answerable(header.source) && for_all
}

/// What an NPDU has for a device; the frame or the header says whether it went to all.
#[tactic(auto, unfolding(crate::specs::Receiving::heard_at))]
pub(crate) fn heard_at(to_all: bool, npdu: &[u8]) -> Option<Heard>
    ensures { GivesSome heard_of result (heard_at to_all npdu.now) }
{
    let (header, octets) = read_npdu(npdu)?;
    if !is_heard(&header) {
        return None;
    }
    let apdu = read_apdu(octets)?;
    Some(Heard {
        to_all: to_all || header.dest.is_some(),
        source: header.source,
        apdu,
    })
}
