//! APDUs, read and written again.

ghost use Rattle.std.specs.Prelude.{IsTrue};
ghost use Rattle.bac_apdu.specs.Apdu.{IsApdu, IsSize, apdu_of};

use crate::fault::Fault;
use crate::text::{shown, written};
use bac_apdu::{Apdu, Frame, read_apdu, read_frame, read_npdu, write_apdu};
use bac_wire::Datagram;
use std::alloc::Global;

/// The APDU in a frame to one device.
pub(crate) fn apdu_in(octets: &[u8]) -> Option<Apdu> {
    match read_frame(octets)? {
        Frame::Unicast(npdu) => {
            let (_, apdu) = read_npdu(npdu)?;
            read_apdu(apdu)
        }
        _ => None,
    }
}

/// The APDU that is read, written.
pub(crate) fn again(alloc: Global, octets: &[u8]) -> Result<String, Fault> {
    let mut out = Datagram::new();
    match read_apdu(octets) {
        Some(apdu) => {
            if !is_writable(&apdu) {
                return shown(alloc, &"no segments");
            }
            written(alloc, write_apdu(&mut out, &apdu), &out)
        }
        None => Err(Fault::BadLine),
    }
}

/// Segments aren't written.
fn is_writable(apdu: &Apdu) -> bool
    ensures { IsTrue result → IsApdu (apdu_of apdu.now) }
{
    match *apdu {
        Apdu::Confirmed {
            segmented,
            max_response,
            ..
        } => !segmented && is_size(max_response),
        Apdu::Unconfirmed { .. } => true,
        Apdu::Simple { .. } => true,
        Apdu::Complex { segmented, .. } => !segmented,
        Apdu::SegmentAck { .. } => false,
        Apdu::Error {
            class: _class,
            code: _code,
            ..
        } => true,
        Apdu::Reject { .. } => true,
        Apdu::Abort { .. } => true,
    }
}

fn is_size(size: u16) -> bool
    ensures { IsTrue result → IsSize size }
{
    size == 50 || size == 128 || size == 206 || size == 480 || size == 1024 || size == 1476
}
