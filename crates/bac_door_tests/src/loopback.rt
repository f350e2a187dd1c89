//! The same over loopback, from a device that a second socket of this machine serves.

use crate::fetching::fetch;
use bac_client::{Datagram, Heard, Item, ObjectId, Port, SocketFault, Stamp, UdpPort, Why};
use bac_device::{Device, DeviceLine, Name, ObjectLine};
use std::alloc::Global;
use std::test::Fail;

/// Any free port of 127.0.0.1.
const LOOPBACK: [u8; 6] = [127, 0, 0, 1, 0, 0];

/// Two sockets of this machine: what is sent from one comes to the other, which answers it by the
/// device. The first `deaf` datagrams that come to the device are dropped.
#[derive(Drop)]
struct Served {
    client: UdpPort,
    server: UdpPort,
    device: Device,
    deaf: usize,
}

impl Served {
    /// Serves one datagram.
    fn serve(&mut self) -> Result<(), SocketFault> {
        let Heard { from, datagram } = self.server.receive()?;
        let Some(request) = datagram else {
            return Ok(());
        };
        if 0 < self.deaf {
            self.deaf -= 1;
            return Ok(());
        }
        let mut reply = Datagram::new();
        match self.device.answer_into(request.octets(), &mut reply) {
            Some(_) => self.server.send(reply.octets(), from),
            None => Ok(()),
        }
    }
}

impl Port for Served {
    ghost sends = { λ old octets to answer new. Unit {0} };

    ghost receives = { λ old answer new. Unit {0} };

    ghost receives_within = { λ old wait answer new. Unit {0} };

    fn send(&mut self, octets: &[u8], to: [u8; 6]) -> Result<(), SocketFault> {
        self.client.send(octets, to)?;
        self.serve()
    }

    fn receive(&mut self) -> Result<Heard, SocketFault> {
        self.client.receive()
    }

    fn receive_within(&mut self, wait_ms: u32) -> Result<Heard, SocketFault> {
        self.client.receive_within(wait_ms)
    }
}

fn name(alloc: Global, text: &str) -> Result<Name, Fail> {
    Ok(Name::of(String::from_str(alloc, text)?))
}

fn line(alloc: Global) -> Result<DeviceLine, Fail> {
    Ok(DeviceLine {
        instance: 123,
        name: name(alloc, "plant")?,
        vendor: 0,
        reply_size: 1476,
        clock: Stamp::new(2024, 5, 6, 7, 8, 9, 10).ok_or("no such moment")?,
    })
}

/// A log of an integer value that keeps two records.
fn lines(alloc: Global) -> Result<[ObjectLine; 2], Fail> {
    let source = ObjectId::new(45, 1).ok_or("no such identifier")?;
    Ok([
        ObjectLine::Integer {
            instance: 1,
            name: name(alloc, "level")?,
            default: -5,
        },
        ObjectLine::Log {
            instance: 1,
            name: name(alloc, "trend")?,
            source,
            capacity: 2,
            interval: 0,
            logged: 0,
        },
    ])
}

/// A device with that log, in which three records were logged.
fn device(alloc: Global) -> Result<Device, Fail> {
    let mut device = Device::build(alloc, &line(alloc)?, &lines(alloc)?)?;
    for _ in 0..3 {
        device.sample(1).ok().ok_or("no sample")?;
    }
    Ok(device)
}

/// The client's and the device's socket, and the device's address.
fn over_loopback(rt: &HostRuntime, deaf: usize) -> Result<(Served, [u8; 6]), Fail> {
    let client = UdpPort::open(rt, LOOPBACK, 200).ok().ok_or("no socket")?;
    let server = UdpPort::open(rt, LOOPBACK, 1000).ok().ok_or("no socket")?;
    let at = server.local().ok_or("no address")?;
    let served = Served {
        client,
        server,
        device: device(rt.alloc())?,
        deaf,
    };
    Ok((served, at))
}

#[test]
fn a_log_is_walked_over_loopback(rt: HostRuntime) -> Result<(), Fail> {
    let log = ObjectId::new(20, 1).ok_or("no such identifier")?;
    // The first question is lost twice, and asked again.
    let (port, at) = over_loopback(&rt, 2)?;
    let outcome = fetch(rt.alloc(), port, at, log, 1, 10).ok_or("no walk")?;
    assert!(rt; matches!(outcome.why, Why::CaughtUp));
    assert_eq!(rt; outcome.next, 4);
    assert!(rt;
        matches!(
            outcome.items.as_slice(),
            [
                Item::Gap {
                    first: 1,
                    before: 2
                },
                Item::Logged { number: 2, .. },
                Item::Logged { number: 3, .. }
            ]
        )
    );
    Ok(())
}
