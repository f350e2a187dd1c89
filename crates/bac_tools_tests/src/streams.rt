//! Scripts whose reader or writer is interrupted, or gives and takes single octets. Reads and
//! writes that fail are in examples/check/faults.py.

use bac_script::{ReplayFault, run_replay};
use std::alloc::Global;
use std::io::{self, Read, Write};

/// A Who-Is, a datagram that is none, and a Who-Is again.
const SCRIPT: &[u8] = b"\
    device 123 plant 0 1476 2024-05-06T07:08:09.10\n\
    rx 810b000c0120ffff00ff1008\n\
    rx 00\n\
    rx 810b000c0120ffff00ff1008\n";

/// The I-Am that answers each Who-Is.
const ANSWERS: &[u8] = b"\
    tx 810a001401001000c40200007b2205c491032100\n\
    none\n\
    tx 810a001401001000c40200007b2205c491032100\n";

/// A writer over memory that takes so many octets, and then refuses.
#[derive(Drop)]
pub struct Short {
    pub text: Vec<u8>,
    room: usize,
}

impl Write for Short {
    ghost use Rattle.std.specs.Prelude.{Some};

    ghost contents = { λ s. Some s.text.items };

    fn write(&mut self, buf: &[u8]) -> io::Result<usize> {
        if self.room == 0 {
            return Err(io::Error::from(io::ErrorKind::Other));
        }
        let n = buf.len().min(self.room);
        self.text.extend_from_slice(&buf[..n])?;
        self.room -= n;
        Ok(n)
    }

    fn flush(&mut self) -> io::Result<()> {
        Ok(())
    }
}

/// A reader over memory that gives one octet a read, as a slow pipe may.
#[derive(Drop)]
struct Dripping<'a> {
    rest: &'a [u8],
}

impl Read for Dripping<'_> {
    fn read(&mut self, buf: &mut [u8]) -> io::Result<usize> {
        if self.rest.is_empty() || buf.is_empty() {
            return Ok(0);
        }
        buf[0] = self.rest[0];
        self.rest = &self.rest[1..];
        Ok(1)
    }
}

/// A writer over memory that takes one octet a write.
#[derive(Drop)]
struct Narrow {
    text: Vec<u8>,
}

impl Write for Narrow {
    fn write(&mut self, buf: &[u8]) -> io::Result<usize> {
        match buf.first() {
            Some(octet) => {
                self.text.push(*octet)?;
                Ok(1)
            }
            None => Ok(0),
        }
    }

    fn flush(&mut self) -> io::Result<()> {
        Ok(())
    }
}

/// How the script ends between these two, and whether its answers are written.
fn replay_drop_by_drop(alloc: Global) -> (Result<(), ReplayFault>, bool) {
    let mut reader = Dripping { rest: SCRIPT };
    let mut writer = Narrow {
        text: Vec::new(alloc),
    };
    let ended = run_replay(alloc, &mut reader, &mut writer);
    (ended, writer.text.as_slice() == ANSWERS)
}

#[test]
fn octets_may_come_and_go_one_at_a_time(rt: HostRuntime) {
    assert_eq!(rt; replay_drop_by_drop(rt.alloc()), (Ok(()), true));
}

/// Whether a signal interrupts the next call: it does before each call that is answered.
#[derive(Drop)]
struct Signals {
    due: bool,
}

impl Signals {
    fn interrupts(&mut self) -> bool {
        self.due = !self.due;
        !self.due
    }
}

/// A reader over memory of which each read is interrupted once.
#[derive(Drop)]
struct Interrupted<'a> {
    rest: &'a [u8],
    signals: Signals,
}

impl Read for Interrupted<'_> {
    fn read(&mut self, buf: &mut [u8]) -> io::Result<usize> {
        if self.signals.interrupts() {
            return Err(io::Error::from(io::ErrorKind::Interrupted));
        }
        self.rest.read(buf)
    }
}

/// A writer over memory of which each write is interrupted once, and which takes at most 7 octets.
#[derive(Drop)]
struct Busy {
    text: Vec<u8>,
    signals: Signals,
}

impl Write for Busy {
    fn write(&mut self, buf: &[u8]) -> io::Result<usize> {
        if self.signals.interrupts() {
            return Err(io::Error::from(io::ErrorKind::Interrupted));
        }
        let n = buf.len().min(7);
        self.text.extend_from_slice(&buf[..n])?;
        Ok(n)
    }

    fn flush(&mut self) -> io::Result<()> {
        Ok(())
    }
}

/// How the script ends between these two, and whether its answers are written.
fn replay_among_signals(alloc: Global) -> (Result<(), ReplayFault>, bool) {
    let mut reader = Interrupted {
        rest: SCRIPT,
        signals: Signals { due: true },
    };
    let mut writer = Busy {
        text: Vec::new(alloc),
        signals: Signals { due: true },
    };
    let ended = run_replay(alloc, &mut reader, &mut writer);
    (ended, writer.text.as_slice() == ANSWERS)
}

#[test]
fn a_signal_is_no_fault(rt: HostRuntime) {
    assert_eq!(rt; replay_among_signals(rt.alloc()), (Ok(()), true));
}
