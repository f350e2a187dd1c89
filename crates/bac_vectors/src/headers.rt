//! Frames, network headers and APDUs.

use crate::apdus::{again, apdu_in};
use crate::fault::Fault;
use crate::text::{shown, written};
use bac_apdu::{read_apdu, read_frame, read_npdu, write_datagram, write_result};
use bac_wire::Datagram;
use std::alloc::Global;

pub(crate) fn answer(alloc: Global, call: &str, octets: &[u8]) -> Option<Result<String, Fault>> {
    Some(match call {
        "read_frame" => shown(alloc, &read_frame(octets)),
        "read_npdu" => shown(alloc, &read_npdu(octets)),
        "read_apdu" => shown(alloc, &read_apdu(octets)),
        "apdu_in" => shown(alloc, &apdu_in(octets)),
        "write_apdu" => again(alloc, octets),
        "write_datagram" => framed(alloc, octets),
        "write_result" => nak(alloc, octets),
        _ => return None,
    })
}

/// A network header and what follows it, in a frame.
fn framed(alloc: Global, octets: &[u8]) -> Result<String, Fault> {
    let mut out = Datagram::new();
    match read_npdu(octets) {
        Some((npdu, apdu)) => written(alloc, write_datagram(&mut out, &npdu, apdu), &out),
        None => Err(Fault::BadLine),
    }
}

/// A BVLC-Result with a code of two octets.
fn nak(alloc: Global, octets: &[u8]) -> Result<String, Fault> {
    let mut out = Datagram::new();
    match octets {
        [high, low] => {
            let code = u16::from_be_bytes([*high, *low]);
            written(alloc, write_result(&mut out, code), &out)
        }
        _ => Err(Fault::BadLine),
    }
}
