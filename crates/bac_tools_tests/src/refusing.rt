//! An output that refused once takes nothing more, also from a buffer that is dropped.

use bac_tools::UntilRefused;
use std::alloc::Global;
use std::io::{self, BufWriter, ErrorKind, Write};

/// Refuses its first write in this way, and takes the rest.
#[derive(Drop)]
struct Balky {
    text: Vec<u8>,
    writes: u32,
    refusal: ErrorKind,
}

impl Write for Balky {
    fn write(&mut self, buf: &[u8]) -> io::Result<usize> {
        self.writes = self.writes.saturating_add(1);
        if self.writes == 1 {
            return Err(io::Error::from(self.refusal));
        }
        self.text.extend_from_slice(buf)?;
        Ok(buf.len())
    }

    fn flush(&mut self) -> io::Result<()> {
        Ok(())
    }
}

fn new_balky(alloc: Global, refusal: ErrorKind) -> Balky {
    Balky {
        text: Vec::new(alloc),
        writes: 0,
        refusal,
    }
}

/// Writes to a buffer of its own, and flushes it twice, before it drops it: whether each was done.
fn write_and_flush_twice(alloc: Global, paper: &mut Balky) -> Option<[bool; 3]> {
    let mut output = BufWriter::new(alloc, UntilRefused::new(paper)).ok()?;
    let written = output.write_all(b"lost").is_ok();
    let flushed = output.flush().is_ok();
    Some([written, flushed, output.flush().is_ok()])
}

/// The same to a paper that refuses; and how many octets it took, of how many writes.
fn lose(alloc: Global) -> (Option<[bool; 3]>, usize, u32) {
    let mut paper = new_balky(alloc, ErrorKind::Other);
    let done = write_and_flush_twice(alloc, &mut paper);
    (done, paper.text.len(), paper.writes)
}

#[test]
fn a_dropped_buffer_writes_nothing_behind_a_refused_write(rt: HostRuntime) {
    assert_eq!(rt; lose(rt.alloc()), (Some([true, false, false]), 0, 1));
}

/// How many octets of each of four texts are taken.
fn write_four(output: &mut impl Write) -> [Option<usize>; 4] {
    [
        output.write(b"kept").ok(),
        output.write(b"kept").ok(),
        output.write(b"").ok(),
        output.write(b"too").ok(),
    ]
}

/// How many are taken if the first write is interrupted, and whether these are what is kept.
fn keep(alloc: Global) -> ([Option<usize>; 4], bool) {
    let mut paper = new_balky(alloc, ErrorKind::Interrupted);
    let taken = write_four(&mut UntilRefused::new(&mut paper));
    (taken, paper.text.as_slice() == b"kepttoo".as_slice())
}

#[test]
fn a_signal_refuses_nothing(rt: HostRuntime) {
    let taken = [None, Some(4), Some(0), Some(3)];
    assert_eq!(rt; keep(rt.alloc()), (taken, true));
}
