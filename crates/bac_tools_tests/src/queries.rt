//! What a walk prints, and with how many writes, over a port in memory. What each answer prints is
//! in examples/check/*.talk, and writes that fail are in faults.py.

use crate::memory_port::{Coming, MemoryPort};
use bac_form::Form;
use bac_link::Transactions;
use bac_ports::{Port, UdpLink};
use bac_query::fetch_log_ahead;
use bac_walk::{Walk, Why};
use bac_wire::{Address, ObjectId};
use std::alloc::Global;
use std::io::{self, Write};

/// 10.0.0.1:47808.
const DEVICE: Address = [10, 0, 0, 1, 0xba, 0xc0];

/// Takes what it is given, and counts the writes.
#[derive(Drop)]
struct Paper {
    text: Vec<u8>,
    writes: u32,
}

impl Write for Paper {
    fn write(&mut self, buf: &[u8]) -> io::Result<usize> {
        self.writes = self.writes.saturating_add(1);
        self.text.extend_from_slice(buf)?;
        Ok(buf.len())
    }

    fn flush(&mut self) -> io::Result<()> {
        Ok(())
    }
}

/// What two replies with two records each come to, of a log that has lost its first two.
const PRINTED: &[u8] = b"\
    gap 1 2\n\
    3 2024-05-06T07:08:09.10 enum(0) 0000\n\
    4 2024-05-06T07:08:09.10 enum(0) 0000\n\
    5 2024-05-06T07:08:09.10 enum(0) 0000\n\
    6 2024-05-06T07:08:09.10 enum(0) 0000\n\
    caught up, next 7\n";

/// An ACK without records.
fn empty(invoke: u8) -> [u8; 23] {
    [
        0x81, 0x0a, 0, 0x17, 1, 0, 0x30, invoke, 0x1a, 0x0c, 5, 0, 0, 1, 0x19, 0x83, 0x3a, 5, 0,
        0x49, 0, 0x5e, 0x5f,
    ]
}

/// An ACK with two records, the first of which has this number.
fn two(invoke: u8, number: u8) -> [u8; 63] {
    [
        0x81, 0x0a, 0, 0x3f, 1, 0, 0x30, invoke, 0x1a, 0x0c, 5, 0, 0, 1, 0x19, 0x83, 0x3a, 5, 0xc0,
        0x49, 2, 0x5e, 0x0e, 0xa4, 0x7c, 5, 6, 1, 0xb4, 7, 8, 9, 0x0a, 0x0f, 0x1e, 0x39, 0, 0x1f,
        0x2a, 4, 0, 0x0e, 0xa4, 0x7c, 5, 6, 1, 0xb4, 7, 8, 9, 0x0a, 0x0f, 0x1e, 0x39, 0, 0x1f,
        0x2a, 4, 0, 0x5f, 0x69, number,
    ]
}

/// Trend Log 1, from its number 1 on.
fn from_the_first() -> Option<Walk> {
    Walk::from_number(ObjectId::new(20, 1)?, 1)
}

/// Fetches over a port: why the walk ended, the number that comes next, and whether more is there.
fn fetch<P: Port + Drop>(alloc: Global, port: P, out: &mut impl Write) -> Option<(Why, u32, bool)> {
    let walk = from_the_first()?;
    let mut link = UdpLink::new(port, DEVICE);
    let mut transactions = Transactions::new(0);
    let layout = Form::Lines;
    match fetch_log_ahead(alloc, &mut link, &mut transactions, walk, 10, layout, out) {
        Ok(fetched) => Some((fetched.why, fetched.next, fetched.said_more)),
        Err(_) => None,
    }
}

/// Fetches two replies with two records each, and then none: how the walk ends, whether all is
/// printed, and with how many writes.
fn fetch_four(alloc: Global) -> (Option<(Why, u32, bool)>, bool, u32) {
    let mut out = Paper {
        text: Vec::new(alloc),
        writes: 0,
    };
    let coming = [
        Coming::From(DEVICE, &two(1, 3)),
        Coming::From(DEVICE, &two(2, 5)),
        Coming::From(DEVICE, &empty(3)),
        Coming::From(DEVICE, &empty(4)),
    ];
    let fetched = fetch(alloc, MemoryPort::new(&coming), &mut out);
    (fetched, out.text.as_slice() == PRINTED, out.writes)
}

#[test]
fn records_are_printed_a_reply_at_a_time(rt: HostRuntime) {
    let fetched = (Why::CaughtUp, 7, false);
    // two replies with records, and the end
    assert_eq!(rt; fetch_four(rt.alloc()), (Some(fetched), true, 3));
}
