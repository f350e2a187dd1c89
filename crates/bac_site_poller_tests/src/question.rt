//! What a simulated device makes of a datagram, and what it answers.

use bac_wire::Datagram;
use std::alloc::Global;

/// The flag of a header that has a place (clause 6.2.2).
const HAS_PLACE: u8 = 0x20;

/// The flag of one that expects a reply.
const REPLY: u8 = 4;

/// The first octet of the identifier of a trend log.
const TREND_LOG: u8 = 5;

/// A confirmed request that a datagram is.
#[derive(Clone, Copy)]
pub(crate) struct Question {
    /// The network that it is for, and the one octet of an address there; zeros: none.
    pub place: [u8; 3],
    pub invoke: u8,
    /// Whether its object is a trend log.
    pub is_log: bool,
    /// The last octet of the instance of that.
    pub instance: u8,
    /// The property, all of which are below 256.
    pub property: u8,
}

/// An octet; 0 behind the end.
pub(crate) fn octet_at(octets: &[u8], place: usize) -> u8 {
    if place < octets.len() {
        octets[place]
    } else {
        0
    }
}

/// The request that a datagram is; none: it expects no reply, as a Who-Is.
pub(crate) fn question_in(octets: &[u8]) -> Option<Question> {
    let flags = octet_at(octets, 5);
    if flags & REPLY == 0 {
        return None;
    }
    let routed = flags & HAS_PLACE != 0;
    let apdu = if routed { 11 } else { 6 };
    let place = if routed {
        [
            octet_at(octets, 6),
            octet_at(octets, 7),
            octet_at(octets, 9),
        ]
    } else {
        [0; 3]
    };
    Some(Question {
        place,
        invoke: octet_at(octets, apdu + 2),
        is_log: octet_at(octets, apdu + 5) == TREND_LOG,
        instance: octet_at(octets, apdu + 8),
        property: octet_at(octets, apdu + 10),
    })
}

/// An Error that answers it: property, unknown-property.
pub(crate) fn error(question: Question) -> Option<Datagram> {
    let [high, low, address] = question.place;
    let invoke = question.invoke;
    if address == 0 {
        return Datagram::of(&[
            0x81, 0x0a, 0x00, 0x0d, 0x01, 0x00, 0x50, invoke, 0x0c, 0x91, 0x02, 0x91, 0x20,
        ]);
    }
    Datagram::of(&[
        0x81, 0x0a, 0x00, 0x11, 0x01, 0x08, high, low, 0x01, address, 0x50, invoke, 0x0c, 0x91,
        0x02, 0x91, 0x20,
    ])
}

/// A reply in hexadecimal digits that answers it, by no router.
pub(crate) fn reply(alloc: Global, digits: &str, question: Question) -> Option<Datagram> {
    let Ok(mut octets) = hex::decode(alloc, digits) else {
        return None;
    };
    if octets.len() > 7 {
        octets[7] = question.invoke;
    }
    Datagram::of(octets.as_slice())
}

/// An Abort by the server: segmentation-not-supported.
pub(crate) fn abort(question: Question) -> Option<Datagram> {
    let [high, low, address] = question.place;
    let invoke = question.invoke;
    if address == 0 {
        return Datagram::of(&[0x81, 0x0a, 0x00, 0x09, 0x01, 0x00, 0x71, invoke, 0x04]);
    }
    Datagram::of(&[
        0x81, 0x0a, 0x00, 0x0d, 0x01, 0x08, high, low, 0x01, address, 0x71, invoke, 0x04,
    ])
}

/// The Object_Identifier of a device with this instance.
pub(crate) fn identifier(question: Question, device: u8) -> Option<Datagram> {
    let [high, low, address] = question.place;
    let invoke = question.invoke;
    if address == 0 {
        return Datagram::of(&[
            0x81, 0x0a, 0x00, 0x17, 0x01, 0x00, 0x30, invoke, 0x0c, 0x0c, 0x02, 0x3f, 0xff, 0xff,
            0x19, 0x4b, 0x3e, 0xc4, 0x02, 0x00, 0x00, device, 0x3f,
        ]);
    }
    Datagram::of(&[
        0x81, 0x0a, 0x00, 0x1b, 0x01, 0x08, high, low, 0x01, address, 0x30, invoke, 0x0c, 0x0c,
        0x02, 0x3f, 0xff, 0xff, 0x19, 0x4b, 0x3e, 0xc4, 0x02, 0x00, 0x00, device, 0x3f,
    ])
}
