//! Walks over a link that stands for a router, and requests that it doesn't carry. How a device
//! answers what came through one is in examples/check/lines.rows, and how one is asked in
//! asking.talk.

use crate::direct_link::{brought, gap, plant_with, state};
use crate::walk::walk_from;
use bac_apdu::Route;
use bac_device::Device;
use bac_link::{LogLink, Transactions};
use bac_memory_link::{DirectLink, LinkEvent, RoutedLink};
use bac_walk::{Outcome, Why, collect};
use std::alloc::Global;

/// Walks from number 1 on, through a router to address 0a on network 7, from address 7f on network
/// 5.
fn walk_through(alloc: Global, device: &mut Device) -> Option<Outcome> {
    let mut walk = walk_from(1)?;
    let there = Route::new(7, &[0x0a])?;
    let far = Route::new(7, &[0x0a])?;
    let near = Route::new(5, &[0x7f])?;
    let mut transactions = Transactions::through(3, there);
    let mut link = RoutedLink::new(DirectLink::new(device, &[]), far, near);
    Some(collect(alloc, &mut link, &mut transactions, &mut walk, 10))
}

#[test]
fn a_walk_through_a_router(rt: HostRuntime) {
    let mut device = plant_with(&rt, 3, 6);
    let outcome = walk_through(rt.alloc(), &mut device).expect(&rt, "a walk");
    let items = [gap(1, 3), state(3), state(4), state(5)];
    brought(&rt, &outcome, &items, 6, Why::CaughtUp);
}

/// ReadRange of Trend Log 1 by number 1, count 100, for address 0a on network 7.
const THERE: [u8; 28] = [
    0x81, 0x0a, 0, 0x1c, 1, 0x24, 0, 7, 1, 0x0a, 0xff, 0, 5, 1, 0x1a, 0x0c, 5, 0, 0, 1, 0x19, 0x83,
    0x6e, 0x21, 1, 0x31, 0x64, 0x6f,
];

/// The same, for this network.
const HERE: [u8; 23] = [
    0x81, 0x0a, 0, 0x17, 1, 4, 0, 5, 1, 0x1a, 0x0c, 5, 0, 0, 1, 0x19, 0x83, 0x6e, 0x21, 1, 0x31,
    0x64, 0x6f,
];

/// Whether an ask of the link is lost.
fn loses(link: &mut impl LogLink, request: &[u8]) -> bool {
    link.ask(request).is_err()
}

/// Whether asks are lost: one straight to the device, and two through a router to address 0b.
fn three_asks(device: &mut Device) -> Option<[bool; 3]> {
    let far = Route::new(7, &[0x0b])?;
    let near = Route::new(5, &[0x7f])?;
    let events = [LinkEvent::Sample(1), LinkEvent::Answer];
    let mut direct = DirectLink::new(device, &events);
    // Nothing is played for a request to another network.
    let straight = loses(&mut direct, &THERE);
    let mut link = RoutedLink::new(direct, far, near);
    // Neither for another place nor for this network.
    Some([straight, loses(&mut link, &THERE), loses(&mut link, &HERE)])
}

#[test]
fn requests_that_a_link_does_not_carry(rt: HostRuntime) {
    let mut device = plant_with(&rt, 3, 6);
    assert_eq!(rt; three_asks(&mut device), Some([true; 3]));
}
