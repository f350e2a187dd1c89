//! Finding devices over a port in memory: how many datagrams are taken, and that each line is
//! passed on. Who is asked, which datagrams announce a device, and what is told of an address that
//! the system refuses is in examples/check/finding.talk; receives and writes that fail are in
//! faults.py.

use crate::memory_port::{Coming, MemoryPort};
use bac_apdu::WhoIs;
use bac_ports::{Heard, Port, SocketFault};
use bac_query::{FindFault, Search, find_devices};
use bac_wire::Address;
use std::alloc::Global;
use std::io::{self, Write};

/// 10.0.0.1:47808.
const FIRST: Address = [10, 0, 0, 1, 0xba, 0xc0];

const ANY: Search = Search {
    network: None,
    who_is: WhoIs { limits: None },
};

/// I-Am to one device: device 123, 1476 octets, no segmentation, vendor 0.
const I_AM: [u8; 20] = [
    0x81, 0x0a, 0, 20, 1, 0, 0x10, 0, 0xc4, 2, 0, 0, 0x7b, 0x22, 5, 0xc4, 0x91, 3, 0x21, 0,
];

const TWO_LINES: &[u8] = b"\
    I-Am 123 10.0.0.1:47808 max-apdu 1476 segmentation 3 vendor 0\n\
    I-Am 123 10.0.0.1:47808 max-apdu 1476 segmentation 3 vendor 0\n";

/// Takes one octet a write, and counts how often it was told to pass on what it has.
#[derive(Drop)]
struct Paper {
    text: Vec<u8>,
    flushes: u32,
}

impl Write for Paper {
    fn write(&mut self, buf: &[u8]) -> io::Result<usize> {
        match buf.first() {
            Some(octet) => {
                self.text.push(*octet)?;
                Ok(1)
            }
            None => Ok(0),
        }
    }

    fn flush(&mut self) -> io::Result<()> {
        self.flushes = self.flushes.saturating_add(1);
        Ok(())
    }
}

/// Each receive brings a datagram that is too long.
#[derive(Drop)]
struct Station {
    received: u32,
}

impl Port for Station {
    ghost sends = { λ old octets to answer new. Unit {0} };

    ghost receives = { λ old answer new. Unit {0} };

    ghost receives_within = { λ old wait answer new. Unit {0} };

    fn send(&mut self, _octets: &[u8], _to: Address) -> Result<(), SocketFault> {
        Ok(())
    }

    fn receive(&mut self) -> Result<Heard, SocketFault> {
        self.received = self.received.saturating_add(1);
        Ok(Heard {
            from: FIRST,
            datagram: None,
        })
    }

    // Nothing is there before a whole wait.
    fn receive_within(&mut self, _wait_ms: u32) -> Result<Heard, SocketFault> {
        Err(SocketFault::Timeout)
    }
}

/// Finds nothing, and writes nothing.
fn finds_nothing(alloc: Global, port: &mut Station) -> bool {
    let mut text = Vec::new(alloc);
    let found = find_devices(alloc, port, &[FIRST], &ANY, &mut text);
    matches!(found, Err(FindFault::NoAnswer)) && text.is_empty()
}

#[test]
fn no_more_than_4096_datagrams_are_received(rt: HostRuntime) {
    let mut port = Station { received: 0 };
    assert!(rt; finds_nothing(rt.alloc(), &mut port));
    assert_eq!(rt; port.received, 4096);
}

/// A device tells of itself twice, and then nothing comes: whether it is found, and how many
/// receives it takes. The wait in which nothing comes is the last.
fn find_two(alloc: Global, out: &mut Paper) -> (bool, usize) {
    let coming = [
        Coming::From(FIRST, &I_AM),
        Coming::From(FIRST, &I_AM),
        Coming::Nothing,
    ];
    let mut port = MemoryPort::new(&coming);
    let found = find_devices(alloc, &mut port, &[FIRST], &ANY, out);
    (found.is_ok(), port.received)
}

/// The same; and whether both lines are written, and how often they are passed on.
fn find_on_paper(alloc: Global) -> ((bool, usize), bool, u32) {
    let mut out = Paper {
        text: Vec::new(alloc),
        flushes: 0,
    };
    let found = find_two(alloc, &mut out);
    (found, out.text.as_slice() == TWO_LINES, out.flushes)
}

#[test]
fn a_line_is_written_octet_by_octet_and_passed_on(rt: HostRuntime) {
    assert_eq!(rt; find_on_paper(rt.alloc()), ((true, 3), true, 2));
}
