//! What each ask of a link straight to a device brings. Gaps, purges, logs that aren't there and
//! walks that are resumed are in examples/scripts, and asks that are lost in
//! examples/check/asking.talk.

use bac_device::{Device, DeviceLine, Name, ObjectLine};
use bac_link::{Item, LogLink, Lost};
use bac_log::{Datum, Entry};
use bac_memory_link::{DirectLink, LinkEvent};
use bac_walk::{Outcome, Why};
use bac_wire::{Date4, ObjectId, Stamp, Time4};
use std::alloc::Global;
use std::process::Abort;

pub(crate) fn name(alloc: Global, text: &str) -> Option<Name> {
    Some(Name::of(String::from_str(alloc, text).ok()?))
}

/// Device 123, whose clock shows 07:08:09.10.
pub(crate) fn device_line(alloc: Global) -> Option<DeviceLine> {
    // 2024-05-06, a Monday.
    let clock = Stamp::new(2024, 5, 6, 7, 8, 9, 10)?;
    Some(DeviceLine {
        instance: 123,
        name: name(alloc, "plant")?,
        vendor: 0,
        reply_size: 1476,
        clock,
    })
}

/// Binary Value 1.
fn pump(alloc: Global) -> Option<ObjectLine> {
    Some(ObjectLine::Binary {
        instance: 1,
        name: name(alloc, "pump")?,
        default: 0,
    })
}

/// Trend Log 1 of it, for so many records.
fn trend(alloc: Global, capacity: u32) -> Option<ObjectLine> {
    let source = ObjectId::new(5, 1)?;
    Some(ObjectLine::Log {
        instance: 1,
        name: name(alloc, "trend")?,
        source,
        capacity,
        interval: 0,
        logged: 0,
    })
}

/// Device 123 with both.
fn plant(alloc: Global, capacity: u32) -> Option<Device> {
    let device = device_line(alloc)?;
    let pump = pump(alloc)?;
    let trend = trend(alloc, capacity)?;
    Device::build(alloc, &device, &[pump, trend]).ok()
}

/// Whether Trend Log 1 takes its records from 1 on, up to the one before this number.
fn samples(device: &mut Device, end: u32) -> bool {
    for number in 1..end {
        if device.sample(1) != Ok(number) {
            return false;
        }
    }
    true
}

/// Device 123 whose Trend Log 1, for so many records, has taken those before this number.
pub(crate) fn plant_with(rt: &(impl Abort + AllocGlobal), capacity: u32, end: u32) -> Device {
    let mut device = plant(rt.alloc(), capacity).expect(rt, "a device");
    assert!(rt; samples(&mut device, end));
    device
}

/// WriteProperty of Record_Count 0 of Trend Log 1, which purges it.
pub(crate) const PURGE: [u8; 21] = [
    0x81, 0x0a, 0, 0x15, 1, 4, 0, 5, 9, 0x0f, 0x0c, 5, 0, 0, 1, 0x19, 0x8d, 0x3e, 0x21, 0, 0x3f,
];

/// 2024-05-06, a Monday.
const DATE: Date4 = Date4 {
    year: 124,
    month: 5,
    day: 6,
    weekday: 1,
};

/// The record of this datum at 07:08:09.10.
fn record(number: u32, datum: Datum, flags: Option<u8>) -> Item {
    Item::Logged {
        number,
        entry: Entry {
            date: DATE,
            time: Time4 {
                hour: 7,
                minute: 8,
                second: 9,
                hundredth: 10,
            },
            datum,
            flags,
        },
    }
}

/// The record of the pump, which doesn't run.
pub(crate) fn state(number: u32) -> Item {
    record(number, Datum::Enumerated(0), Some(0))
}

/// The record of a source that isn't there.
pub(crate) fn absent(number: u32) -> Item {
    record(number, Datum::Failure { class: 1, code: 31 }, None)
}

/// The record of a purge.
pub(crate) fn purged(number: u32) -> Item {
    record(number, Datum::LogStatus(64), None)
}

pub(crate) fn gap(first: u32, before: u32) -> Item {
    Item::Gap { first, before }
}

pub(crate) fn brought(rt: &impl Abort, outcome: &Outcome, items: &[Item], next: u32, why: Why) {
    let brought = (outcome.items.as_slice(), outcome.next, outcome.why);
    assert_eq!(rt; brought, (items, next, why));
}

/// Who-Is.
const WHO_IS: [u8; 8] = [0x81, 0x0a, 0, 8, 1, 0, 0x10, 8];

/// The I-Am that answers it.
const I_AM: [u8; 20] = [
    0x81, 0x0a, 0, 0x14, 1, 0, 0x10, 0, 0xc4, 2, 0, 0, 0x7b, 0x22, 5, 0xc4, 0x91, 3, 0x21, 0,
];

/// Whether an ask of the link brings the I-Am, unless it is lost.
fn tells(link: &mut DirectLink, request: &[u8]) -> Option<bool> {
    match link.ask(request) {
        Ok(reply) => Some(reply.octets() == I_AM.as_slice()),
        Err(Lost) => None,
    }
}

/// What five asks bring over a link that loses the first answer and the third.
fn five_asks(device: &mut Device) -> [Option<bool>; 5] {
    let events = [LinkEvent::Lose, LinkEvent::Answer, LinkEvent::Lose];
    let mut link = DirectLink::new(device, &events);
    [
        tells(&mut link, &WHO_IS),
        // The device doesn't answer this one, and the answer is used up.
        tells(&mut link, &[0x81]),
        tells(&mut link, &WHO_IS),
        tells(&mut link, &WHO_IS),
        tells(&mut link, &WHO_IS),
    ]
}

#[test]
fn each_request_takes_its_answer(rt: HostRuntime) {
    let mut device = plant(rt.alloc(), 2).expect(&rt, "a device");
    let told = five_asks(&mut device);
    assert_eq!(rt; told, [None, None, None, Some(true), Some(true)]);
}
