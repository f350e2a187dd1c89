//! The router of a device has no route to its network: that ends its poll at once.

use crate::comes::{asked, device};
use bac_apdu::Route;
use bac_device_poll::{DeviceEnd, Entry, NoRoute, Step, Way};
use bac_wire::Address;
use std::alloc::Global;
use std::test::Fail;

/// The router's address.
const ROUTER: Address = [10, 0, 0, 5, 0xba, 0xc0];

/// The network of the rejection that a datagram in hexadecimal digits is.
fn rejected(alloc: Global, way: &Way, from: Address, digits: &str) -> Option<u16> {
    let octets = match hex::decode(alloc, digits) {
        Ok(octets) => octets,
        Err(_) => Vec::new(alloc),
    };
    match way.reject(from, octets.as_slice()) {
        Some(reject) => Some(reject.network),
        None => None,
    }
}

/// A datagram, whether it comes from the router, and whether it says that there is no route to
/// network 5.
#[derive(Clone, Copy)]
struct Row {
    digits: &'static str,
    near: bool,
    says: bool,
}

fn from(digits: &'static str, near: bool, says: bool) -> Row {
    Row { digits, near, says }
}

/// Reject-Message-To-Network, and what isn't one of what is asked on network 5.
fn rows() -> [Row; 14] {
    [
        // Reason 1, network 5.
        from("810a000a018003010005", true, true),
        // Reason 6, a wrong address, which is one device's; 2, busy; 3, 4, 5 and 0.
        from("810a000a018003060005", true, false),
        from("810a000a018003020005", true, false),
        from("810a000a018003030005", true, false),
        from("810a000a018003040005", true, false),
        from("810a000a018003050005", true, false),
        from("810a000a018003000005", true, false),
        // Another sender; another network.
        from("810a000a018003010005", false, false),
        from("810a000a018003010006", true, false),
        // To network 9; to all.
        from("810a000e01a00009000003010005", true, false),
        from("810a000e01a0ffff000003010005", true, true),
        // Router-Busy-To-Network (clause 6.4.6).
        from("810a0007018004", true, false),
        // One octet more; a broadcast.
        from("810a000b01800301000500", true, false),
        from("810b000a018003010005", true, false),
    ]
}

#[test]
fn rejections_are_read(rt: HostRuntime) -> Result<(), Fail> {
    let alloc = rt.alloc();
    let way = Way {
        peer: ROUTER,
        route: Route::new(5, &[7]),
    };
    for row in rows() {
        let from = if row.near {
            ROUTER
        } else {
            [10, 0, 0, 6, 0xba, 0xc0]
        };
        let says = if row.says { Some(5) } else { None };
        assert!(rt; rejected(alloc, &way, from, row.digits) == says);
    }
    // A device behind no router.
    let here = Way {
        peer: ROUTER,
        route: None,
    };
    assert!(rt; rejected(alloc, &here, ROUTER, "810a000a018003010005") == None);
    Ok(())
}

#[test]
fn rejection_ends_the_poll(rt: HostRuntime) -> Result<(), Fail> {
    let alloc = rt.alloc();
    let mut poll = device(alloc, Some(4711), false)?;
    let no_route = NoRoute { network: 5 };
    // It is told, and that its log isn't asked.
    let turn = poll.hear_reject(alloc, no_route)?;
    assert!(rt;
        matches!(
            turn.entries.as_slice(),
            [Entry::Rejected(_), Entry::NotAsked(_)]
        )
    );
    assert!(rt; turn.step == Step::End(DeviceEnd::Unreached));
    assert!(rt; asked(&poll) == (0, None));
    Ok(())
}
