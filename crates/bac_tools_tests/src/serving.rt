//! A device that is served over a port in memory, by a clock that moves. Over sockets, and with the
//! machine's clock, it is served by examples/check/edges.sh, and faults.py refuses its calls.

use crate::memory_port::{Coming, MemoryPort, MovingClock};
use bac_device::{Device, DeviceLine, Name, ObjectLine};
use bac_ports::SocketFault;
use bac_serve::{serve, serve_one};
use bac_wire::{Address, ObjectId, Stamp};
use std::alloc::Global;

const CLIENT: Address = [127, 0, 0, 1, 0xba, 0xc0];

/// Who-Is.
const WHO_IS: [u8; 12] = [0x81, 0x0b, 0, 0x0c, 1, 0x20, 0xff, 0xff, 0, 0xff, 0x10, 8];

/// I-Am: device 123, 1476 octets, no segmentation, vendor 0.
const I_AM: [u8; 20] = [
    0x81, 0x0a, 0, 0x14, 1, 0, 0x10, 0, 0xc4, 2, 0, 0, 0x7b, 0x22, 5, 0xc4, 0x91, 3, 0x21, 0,
];

fn name(alloc: Global, text: &str) -> Option<Name> {
    Some(Name::of(String::from_str(alloc, text).ok()?))
}

/// 2024-05-06T07:08 and this second.
fn at(second: u8) -> Option<Stamp> {
    Stamp::new(2024, 5, 6, 7, 8, second, 0)
}

/// Device 123, at 2024-05-06T07:08:00.00.
fn plant(alloc: Global) -> Option<DeviceLine> {
    let clock = at(0)?;
    Some(DeviceLine {
        instance: 123,
        name: name(alloc, "plant")?,
        vendor: 0,
        reply_size: 1476,
        clock,
    })
}

/// Binary Value 1.
fn pump(alloc: Global) -> Option<ObjectLine> {
    Some(ObjectLine::Binary {
        instance: 1,
        name: name(alloc, "pump")?,
        default: 0,
    })
}

/// Trend Log 1 of it.
fn trend(alloc: Global, interval: u32) -> Option<ObjectLine> {
    let source = ObjectId::new(5, 1)?;
    Some(ObjectLine::Log {
        instance: 1,
        name: name(alloc, "trend")?,
        source,
        capacity: 100,
        interval,
        logged: 0,
    })
}

/// Both.
fn lines(alloc: Global, interval: u32) -> Option<Vec<ObjectLine>> {
    let mut lines = Vec::new(alloc);
    lines.push(pump(alloc)?).ok()?;
    lines.push(trend(alloc, interval)?).ok()?;
    Some(lines)
}

/// The device of this line with both.
fn device_of(alloc: Global, plant: &DeviceLine, interval: u32) -> Option<Device> {
    let lines = lines(alloc, interval)?;
    Device::build(alloc, plant, lines.as_slice()).ok()
}

/// Device 123 with both.
fn device(alloc: Global, interval: u32) -> Option<Device> {
    let plant = plant(alloc)?;
    device_of(alloc, &plant, interval)
}

/// How many records Trend Log 1 has.
fn records(device: &Device) -> Option<u32> {
    Some(device.log(1)?.count())
}

/// Whether one datagram was sent, an I-Am to the client.
fn has_told_once(port: &MemoryPort) -> bool {
    port.sends == 1 && port.to == CLIENT && port.sent.octets() == I_AM.as_slice()
}

/// Serves a Who-Is and an I-Am, by a clock that goes on by five seconds: of each, whether it was
/// answered, what the device's clock shows then, and whether one I-Am was sent by then.
fn serve_each(device: &mut Device) -> [(Result<bool, SocketFault>, Option<Stamp>, bool); 2] {
    let mut clock = MovingClock {
        hundredths: 0,
        step: 500,
    };
    let coming = [Coming::From(CLIENT, &WHO_IS), Coming::From(CLIENT, &I_AM)];
    let mut port = MemoryPort::new(&coming);
    let first = serve_one(&mut port, device, &mut clock);
    let first = (first, Some(device.clock()), has_told_once(&port));
    let second = serve_one(&mut port, device, &mut clock);
    [first, (second, Some(device.clock()), has_told_once(&port))]
}

/// The same of a device that was built for it.
fn serve_each_anew(alloc: Global) -> Option<[(Result<bool, SocketFault>, Option<Stamp>, bool); 2]> {
    let mut device = device(alloc, 0)?;
    Some(serve_each(&mut device))
}

#[test]
fn a_reply_goes_to_who_asked(rt: HostRuntime) {
    // an I-Am isn't answered
    let wanted = [(Ok(true), at(5), true), (Ok(false), at(10), true)];
    assert_eq!(rt; serve_each_anew(rt.alloc()), Some(wanted));
}

/// Sets the device's clock to 2024-05-06T07:08 and this second.
fn set_to(device: &mut Device, second: u8) {
    if let Some(stamp) = at(second) {
        let _ = device.advance(stamp);
    }
}

/// Serves two questions by a clock that goes on by five seconds: what comes of each, and what the
/// device's clock shows then; and how many answers were sent.
fn serve_two(device: &mut Device) -> ([(Result<(), SocketFault>, Option<Stamp>); 2], u32) {
    let mut clock = MovingClock {
        hundredths: 0,
        step: 500,
    };
    let coming = [Coming::From(CLIENT, &WHO_IS), Coming::From(CLIENT, &WHO_IS)];
    let mut port = MemoryPort::new(&coming);
    let first = serve(&mut port, device, &mut clock, 1);
    let between = device.clock();
    let second = serve(&mut port, device, &mut clock, 1);
    let served = [(first, Some(between)), (second, Some(device.clock()))];
    (served, port.sends)
}

/// The same of a device whose clock shows seven seconds already.
fn serve_two_ahead(alloc: Global) -> Option<([(Result<(), SocketFault>, Option<Stamp>); 2], u32)> {
    let mut device = device(alloc, 100)?;
    set_to(&mut device, 7);
    Some(serve_two(&mut device))
}

#[test]
fn a_clock_that_goes_back_leaves_the_device(rt: HostRuntime) {
    let wanted = [(Ok(()), at(7)), (Ok(()), at(10))];
    assert_eq!(rt; serve_two_ahead(rt.alloc()), Some((wanted, 2)));
}

/// Nothing comes in fifty waits of a fifth of a second, and then the port fails: what comes of it,
/// and how many receives there were.
fn serve_quietly(device: &mut Device) -> (Result<(), SocketFault>, usize) {
    let mut clock = MovingClock {
        hundredths: 0,
        step: 20,
    };
    let coming = [Coming::Nothing; 50];
    let mut port = MemoryPort::new(&coming);
    let served = serve(&mut port, device, &mut clock, 1);
    (served, port.received)
}

/// The same of a device that was built for it; and what its clock shows then, and how many records
/// Trend Log 1 has.
fn fill(alloc: Global) -> Option<((Result<(), SocketFault>, usize), Option<Stamp>, Option<u32>)> {
    let mut device = device(alloc, 100)?;
    let served = serve_quietly(&mut device);
    Some((served, Some(device.clock()), records(&device)))
}

#[test]
fn ten_quiet_seconds_fill_a_log(rt: HostRuntime) {
    let served = (Err(SocketFault::Failed), 51);
    assert_eq!(rt; fill(rt.alloc()), Some((served, at(10), Some(10))));
}
