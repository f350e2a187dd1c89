//! A log with as many records as one may hold is collected whole, if there is memory.

use crate::direct_link::plant_with;
use crate::walk::walk_from;
use bac_device::Device;
use bac_link::Transactions;
use bac_memory_link::DirectLink;
use bac_walk::{Why, collect};
use std::alloc::Global;

/// How many items a walk from number 1 on brings, the number that comes next, and why it ended.
fn collect_from_1(alloc: Global, device: &mut Device) -> Option<(usize, u32, Why)> {
    let mut walk = walk_from(1)?;
    let mut link = DirectLink::new(device, &[]);
    let mut transactions = Transactions::new(3);
    let outcome = collect(alloc, &mut link, &mut transactions, &mut walk, 1000);
    Some((outcome.items.len(), outcome.next, outcome.why))
}

#[test]
fn a_log_of_65535_records_is_collected(rt: HostRuntime) {
    let mut device = plant_with(&rt, 65_535, 65_536);
    let collected = collect_from_1(rt.alloc(), &mut device);
    assert_eq!(rt; collected, Some((65_535, 65_536, Why::CaughtUp)));
}
