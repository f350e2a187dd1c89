//! Sockets of this machine, of which no contract says what they carry. Which datagrams a link over
//! one takes, and which it passes over, is in examples/check/asking.talk.

use bac_ports::{Port, SocketFault, UdpPort};
use bac_wire::Address;
use std::process::Abort;

/// Any free port of 127.0.0.1.
const LOOPBACK: Address = [127, 0, 0, 1, 0, 0];

/// ReadProperty, invoke ID 1.
const REQUEST: [u8; 17] = [
    0x81, 0x0a, 0, 0x11, 1, 4, 0, 5, 1, 0x0c, 0x0c, 2, 0x3f, 0xff, 0xff, 0x19, 0x4b,
];

/// A socket of this machine, and its address.
fn socket(rt: &(impl std::net::Net + Abort), timeout_ms: u32) -> (UdpPort, Address) {
    let port = UdpPort::open(rt, LOOPBACK, timeout_ms).expect(rt, "a socket");
    let at = port.local().expect(rt, "an address");
    (port, at)
}

#[test]
fn an_address_that_is_none_is_refused_and_the_socket_goes_on(rt: HostRuntime) {
    let (mut port, at) = socket(&rt, 1000);
    // port 0, and an address that stands for all
    assert!(rt; matches!(port.send(&REQUEST, LOOPBACK), Err(SocketFault::Failed)));
    assert!(rt;
        matches!(
            port.send(&REQUEST, [255, 255, 255, 255, 0xba, 0xc0]),
            Err(SocketFault::Failed)
        )
    );
    assert!(rt; port.send(&REQUEST, at).is_ok());
    assert!(rt; port.receive().is_ok());
}

/// The socket sends these octets to itself: how many of them are told, if they are.
fn told(rt: &impl Abort, port: &mut UdpPort, at: Address, octets: &[u8]) -> Option<usize> {
    assert!(rt; port.send(octets, at).is_ok());
    match port.receive().expect(rt, "a datagram").datagram {
        Some(datagram) => Some(datagram.octets().len()),
        None => None,
    }
}

#[test]
fn a_datagram_has_at_most_1501_octets(rt: HostRuntime) {
    let (mut port, at) = socket(&rt, 1000);
    let octets = [0x81; 4000];
    let lengths = [
        told(&rt, &mut port, at, &[]),
        told(&rt, &mut port, at, &octets[..1501]),
        told(&rt, &mut port, at, &octets[..1502]),
        told(&rt, &mut port, at, &octets),
    ];
    assert_eq!(rt; lengths, [Some(0), Some(1501), None, None]);
}
