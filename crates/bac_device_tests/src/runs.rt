//! A run of datagrams, samples and clock steps in one call, which no program makes. One after the
//! other they are in examples/scripts.

use crate::plant::{name, plant};
use bac_device::{ClockBack, Device, Event, ObjectLine, Outcome, SampleFault};
use bac_wire::{ObjectId, Stamp};
use std::alloc::Global;

/// 2024-05-06, a Monday, at 07 and this minute.
fn at(minute: u8, second: u8, hundredth: u8) -> Option<Stamp> {
    Stamp::new(2024, 5, 6, 7, minute, second, hundredth)
}

/// Trend Log 1 of an object that isn't there, each minute.
fn trend(alloc: Global) -> Option<ObjectLine> {
    let source = ObjectId::new(5, 1)?;
    Some(ObjectLine::Log {
        instance: 1,
        name: name(alloc, "trend")?,
        source,
        capacity: 10,
        interval: 6000,
        logged: 0,
    })
}

/// Device 123 with it.
fn with_trend(alloc: Global) -> Option<Device> {
    let line = plant(alloc, 123, "plant", 1476)?;
    let trend = trend(alloc)?;
    Device::build(alloc, &line, &[trend]).ok()
}

/// Enable of Trend Log 1 is to be FALSE, and the SimpleACK of it.
const DISABLE: [u8; 20] = [
    0x81, 0x0a, 0, 20, 1, 4, 0, 5, 1, 0x0f, 0x0c, 5, 0, 0, 1, 0x19, 0x85, 0x3e, 0x10, 0x3f,
];

const DISABLED: [u8; 9] = [0x81, 0x0a, 0, 9, 1, 0, 0x20, 1, 0x0f];

/// A sample, a clock step at which one is due, a write, a sample of a disabled log, and a clock
/// that goes back.
fn are_told(outcomes: &[Outcome]) -> bool {
    match outcomes {
        [
            Outcome::Sample(Ok(1)),
            Outcome::Advance(Ok(1)),
            Outcome::Datagram(Some(reply)),
            Outcome::Sample(Err(SampleFault::Disabled)),
            Outcome::Advance(Err(ClockBack)),
        ] => reply.datagram.octets() == DISABLED.as_slice(),
        _ => false,
    }
}

/// Gives a device these events in one run: whether they are told.
fn run(alloc: Global, device: &mut Device) -> Option<bool> {
    let events = [
        Event::Sample(1),
        Event::Advance(at(9, 9, 10)?),
        Event::Datagram(&DISABLE),
        Event::Sample(1),
        Event::Advance(at(0, 0, 0)?),
    ];
    let outcomes = device.run(alloc, &events).ok()?;
    Some(are_told(outcomes.as_slice()))
}

/// How many records Trend Log 1 has.
fn records(device: &Device) -> Option<u32> {
    Some(device.log(1)?.count())
}

#[test]
fn a_run_has_the_outcome_of_each_event(rt: HostRuntime) {
    let mut device = with_trend(rt.alloc()).expect(&rt, "a device");
    assert_eq!(rt; run(rt.alloc(), &mut device), Some(true));
    assert_eq!(rt; records(&device), Some(3));
}
