//! What a device sends, and to whom.

ghost use Rattle.std.specs.Prelude.{◌≡◌, ◌≤◌, Some, [], length};
ghost use Rattle.bac_apdu.specs.Apdu.{Apdu as ApduValue, IsApdu, Reject, Simple, apdu_octets};
ghost use Rattle.bac_apdu.specs.Apdu.{apdu_of};
ghost use Rattle.bac_apdu.specs.Npdu.{maybe_place_of, place_of};
ghost use Rattle.bac_apdu.specs.Route.{IsRoute, IsWay};
ghost use Rattle.bac_device.specs.Receiving.{nak_octets};
ghost use Rattle.bac_device.specs.Reply.{abort, begun, datagram_octets, datagram_to, error};
ghost use Rattle.bac_device.specs.Reply.{limited};

use bac_apdu::{
    Apdu, Far, Npdu, begin_datagram, end_datagram, write_apdu, write_datagram, write_result,
};
use bac_objects::Fault;
use bac_wire::{Address, Datagram};

/// The header of a reply: no destination, no source, no reply expected, normal priority.
const PLAIN: Npdu = Npdu {
    network: false,
    reply: false,
    priority: 0,
    dest: None,
    source: None,
    hops: 0,
};

/// The octets before the APDU of a reply: the BVLC head and that header.
const HEADS_SIZE: usize = 6;

/// The reason of every Abort: segmentation-not-supported (clause 21, BACnetAbortReason).
const NOT_SEGMENTED: u8 = 4;

/// Who gets a reply.
#[derive(Clone, Copy, Debug, PartialEq, Eq)]
pub enum Receiver {
    /// Whoever sent the datagram that is answered.
    Sender,
    /// This IPv4 address and port, as a Forwarded-NPDU has them (Annex J.2.5).
    Address(Address),
}

/// A datagram that answers another one.
#[derive(Debug, Drop)]
pub struct Reply {
    pub datagram: Datagram,
    pub to: Receiver,
}

/// Begins a datagram to one receiver in place of what `out` holds.
pub(crate) fn begin(out: &mut Datagram)
    ensures { out.new ≡ begun [] }
{
    out.cut(0);
    begin_datagram(out, &PLAIN).unwrap();
}

/// Begins a datagram to one receiver with an APDU, or with the front of one.
pub(crate) fn begin_with(out: &mut Datagram, apdu: &Apdu)
    requires written { IsApdu (apdu_of apdu.now) }
    requires short { length (apdu_octets (apdu_of apdu.now)) ≤ 1476 }
    ensures { out.new ≡ begun (apdu_octets (apdu_of apdu.now)) }
{
    begin(out);
    write_apdu(out, apdu).unwrap();
}

/// Ends a datagram that was begun.
pub(crate) fn end(out: &mut Datagram)
    requires { 6 ≤ length out.old }
    ensures { (m : ApduValue) → out.old ≡ begun (apdu_octets m) → out.new ≡ datagram_octets m }
{
    end_datagram(out, 0);
}

/// Ends a datagram that was begun, if its APDU has at most `limit` octets, else an Abort takes
/// its place.
pub(crate) fn end_within(out: &mut Datagram, limit: u16, invoke: u8)
    requires { 6 ≤ length out.old }
    ensures { (m : ApduValue) → out.old ≡ begun (apdu_octets m)
        → out.new ≡ datagram_octets (limited limit invoke m) }
{
    if out.octets().len() - HEADS_SIZE > limit as usize {
        return abort(out, invoke);
    }
    end(out);
}

/// An APDU in a datagram to one receiver, in place of what `out` holds.
pub(crate) fn write_reply(out: &mut Datagram, apdu: &Apdu)
    requires written { IsApdu (apdu_of apdu.now) }
    requires short { length (apdu_octets (apdu_of apdu.now)) ≤ 1476 }
    ensures { out.new ≡ datagram_octets (apdu_of apdu.now) }
{
    begin_with(out, apdu);
    end(out);
}

/// How many routers a reply may pass (clause 6.2.3).
const MOST_HOPS: u8 = 255;

/// Sends a reply the way that its request came: to the place behind a router that it came from, if
/// it came from one.
pub(crate) fn send_back(out: &mut Datagram, source: Option<Far>)
    requires heads { 6 ≤ length out.old }
    requires way { IsWay (maybe_place_of source) }
    ensures { (m : ApduValue) → length (apdu_octets m) ≤ 1476 → out.old ≡ datagram_octets m
        → out.new ≡ datagram_to (maybe_place_of source.entry) m }
{
    match source {
        Some(place) => send_to(out, place),
        None => {}
    }
}

/// The same reply to a place behind a router.
fn send_to(out: &mut Datagram, place: Far)
    requires heads { 6 ≤ length out.old }
    requires route { IsRoute (place_of place) }
    ensures { (m : ApduValue) → length (apdu_octets m) ≤ 1476 → out.old ≡ datagram_octets m
        → out.new ≡ datagram_to (Some (place_of place.entry)) m }
{
    let header = Npdu {
        network: false,
        reply: false,
        priority: 0,
        dest: Some(place),
        source: None,
        hops: MOST_HOPS,
    };
    let mut routed = Datagram::new();
    let _ = write_datagram(&mut routed, &header, &out.octets()[HEADS_SIZE..]);
    *out = routed;
}

/// The result with a code (clause J.2.1), in place of what `out` holds.
pub(crate) fn nak_with(out: &mut Datagram, code: u8)
    ensures { out.new ≡ nak_octets code }
{
    out.cut(0);
    write_result(out, u16::from(code)).unwrap();
}

/// An Error, in place of what `out` holds.
pub(crate) fn error(out: &mut Datagram, invoke: u8, service: u8, fault: Fault)
    ensures { out.new ≡ datagram_octets (error invoke service fault) }
{
    let apdu = Apdu::Error {
        invoke,
        service,
        class: fault.class(),
        code: fault.code(),
    };
    write_reply(out, &apdu);
}

/// A Reject, in place of what `out` holds.
pub(crate) fn reject(out: &mut Datagram, invoke: u8, reason: u8)
    ensures { out.new ≡ datagram_octets (Reject invoke reason) }
{
    write_reply(out, &Apdu::Reject { invoke, reason });
}

/// An Abort of what would need segments, in place of what `out` holds.
pub(crate) fn abort(out: &mut Datagram, invoke: u8)
    ensures { out.new ≡ datagram_octets (abort invoke) }
{
    let apdu = Apdu::Abort {
        by_server: true,
        invoke,
        reason: NOT_SEGMENTED,
    };
    write_reply(out, &apdu);
}

/// A SimpleACK, in place of what `out` holds.
pub(crate) fn simple(out: &mut Datagram, invoke: u8, service: u8)
    ensures { out.new ≡ datagram_octets (Simple invoke service) }
{
    write_reply(out, &Apdu::Simple { invoke, service });
}
