//! A Who-Is to a device behind a router, and the I-Ams that come.

use bac_apdu::Route;
use bac_device_poll::Way;
use bac_wire::Address;
use std::alloc::Global;
use std::test::Fail;

/// The router's address.
const ROUTER: Address = [10, 0, 0, 5, 0xba, 0xc0];

/// The instance that a datagram in hexadecimal digits announces; 0: none.
fn heard(alloc: Global, way: &Way, from: Address, digits: &str) -> u32 {
    let octets = match hex::decode(alloc, digits) {
        Ok(octets) => octets,
        Err(_) => Vec::new(alloc),
    };
    match way.i_am(from, octets.as_slice()) {
        Some(device) => device.instance(),
        None => 0,
    }
}

#[test]
fn device_behind_a_router_is_asked(rt: HostRuntime) -> Result<(), Fail> {
    let alloc = rt.alloc();
    let way = Way {
        peer: ROUTER,
        route: Route::new(5, &[7]),
    };
    // To DNET 5, DADR 07: an Unconfirmed-Request, Who-Is.
    let asked = hex::encode(alloc, way.who_is().octets())?;
    assert!(rt; asked.as_str() == "810a000d012000050107ff1008");
    // From SNET 5, SADR 07, to all: Device 4711.
    let said = "810b00180108000501071000c4020012672205c49103210f";
    assert!(rt; heard(alloc, &way, ROUTER, said) == 4711);
    // The same from another address.
    assert!(rt; heard(alloc, &way, [10, 0, 0, 6, 0xba, 0xc0], said) == 0);
    // By a Forwarded-NPDU from it.
    let forwarded = "8104001e0a000005bac00108000501071000c4020012672205c49103210f";
    assert!(rt; heard(alloc, &way, [10, 0, 0, 9, 0xba, 0xc0], forwarded) == 4711);
    // Another device behind the same router, SADR 08.
    let other = "810b00180108000501081000c4020012682205c49103210f";
    assert!(rt; heard(alloc, &way, ROUTER, other) == 0);
    // One that isn't behind it.
    let near = "810b001401001000c4020012672205c49103210f";
    assert!(rt; heard(alloc, &way, ROUTER, near) == 0);
    Ok(())
}
