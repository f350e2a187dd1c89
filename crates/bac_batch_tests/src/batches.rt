//! A machine that says what a list has, and what is given of it.

use bac_archive::{BeginningRow, Put};
use bac_batch::Batching;
use bac_drive::{Machine, Next};
use bac_ports::{Heard, SocketFault};
use bac_wire::Datagram;
use std::alloc::{AllocError, Global};
use std::collections::VecDeque;
use std::test::Fail;

/// What the machine inside says.
#[derive(Clone, Copy)]
enum Said {
    /// So many rows of a reply.
    Rows(u32),
    Line(u8),
    Warning(u8),
    Wait(u32),
    Read,
    Send,
}

/// What is given: of rows the number of the first, and how many.
#[derive(Clone, Copy, Debug, PartialEq, Eq)]
enum Given {
    Rows(u32, usize),
    Line(u8),
    Warning(u8),
    Wait(u32),
    Read,
    Send,
    End,
}

/// A batch without rows.
const LATER: Given = Given::Rows(0, 0);

/// A machine that says what a list has, and then that it has ended. It numbers its rows from 1.
#[derive(Drop)]
struct Script {
    says: VecDeque<Said>,
    count: u32,
}

impl Script {
    fn of(alloc: Global, says: &[Said]) -> Result<Script, AllocError> {
        let mut all = VecDeque::new(alloc);
        for said in says {
            all.push_back(*said)?;
        }
        Ok(Script {
            says: all,
            count: 0,
        })
    }

    fn rows(&mut self, alloc: Global, many: u32) -> Result<Next, AllocError> {
        let mut puts = Vec::new(alloc);
        for _ in 0..many {
            self.count = self.count.saturating_add(1);
            puts.push(Put::Beginning(BeginningRow {
                id: self.count,
                number: 0,
                why: None,
            }))?;
        }
        Ok(Next::Keep(puts))
    }
}

fn text(alloc: Global, octet: u8) -> Result<Vec<u8>, AllocError> {
    let mut text = Vec::new(alloc);
    text.push(octet)?;
    Ok(text)
}

impl Machine for Script {
    ghost gives = { λ old next new. Unit {0} };

    ghost hears = { λ old heard new. Unit {0} };

    ghost reads = { λ old ms new. Unit {0} };

    fn next(&mut self, alloc: Global) -> Result<Next, AllocError> {
        match self.says.pop_front() {
            Some(Said::Rows(many)) => self.rows(alloc, many),
            Some(Said::Line(octet)) => Ok(Next::Print(text(alloc, octet)?)),
            Some(Said::Warning(octet)) => Ok(Next::Warn(text(alloc, octet)?)),
            Some(Said::Wait(most)) => Ok(Next::Wait(most)),
            Some(Said::Read) => Ok(Next::Read),
            Some(Said::Send) => Ok(Next::Send(Datagram::new(), [0; 6])),
            None => Ok(Next::End),
        }
    }

    fn hear(&mut self, _heard: Result<Heard, SocketFault>) {}

    fn read(&mut self, _ms: u64) {}
}

fn first_of(puts: &[Put]) -> u32 {
    match puts {
        [Put::Beginning(row), ..] => row.id,
        _ => 0,
    }
}

fn octet_of(text: &[u8]) -> u8 {
    text.first().copied().unwrap_or(0)
}

fn seen(next: &Next) -> Given {
    match next {
        Next::Keep(puts) => Given::Rows(first_of(puts), puts.len()),
        Next::Print(text) => Given::Line(octet_of(text)),
        Next::Warn(text) => Given::Warning(octet_of(text)),
        Next::Wait(most) => Given::Wait(*most),
        Next::Read => Given::Read,
        Next::Send(_, _) => Given::Send,
        Next::End => Given::End,
    }
}

/// What is given of what is said, while the clock tells these.
fn check(alloc: Global, says: &[Said], clock: &[u64], wants: &[Given]) -> Result<(), Fail> {
    let mut batching = Batching::new(alloc, Script::of(alloc, says)?);
    let mut clock = clock;
    for want in wants {
        let next = batching.next(alloc)?;
        if seen(&next) != *want {
            return Err(Fail::from("something else is given"));
        }
        match next {
            Next::Wait(_) => batching.hear(Err(SocketFault::Timeout)),
            Next::Read => {
                if let [ms, rest @ ..] = clock {
                    batching.read(*ms);
                    clock = rest;
                }
            }
            _ => {}
        }
    }
    Ok(())
}

#[test]
fn a_line_stands_behind_its_rows(rt: HostRuntime) -> Result<(), Fail> {
    let says = [
        Said::Line(1),
        Said::Rows(2),
        Said::Rows(0),
        Said::Line(2),
        Said::Rows(1),
        Said::Warning(3),
        Said::Send,
        Said::Rows(3),
    ];
    let wants = [
        Given::Line(1),
        LATER,
        LATER,
        LATER,
        LATER,
        LATER,
        Given::Send,
        LATER,
        Given::Rows(1, 6),
        Given::Line(2),
        Given::Warning(3),
        Given::End,
        Given::End,
    ];
    check(rt.alloc(), &says, &[], &wants)
}

#[test]
fn a_batch_has_64_replies(rt: HostRuntime) -> Result<(), Fail> {
    let says = [Said::Rows(1); 65];
    let mut wants = [LATER; 67];
    wants[63] = Given::Rows(1, 64);
    wants[65] = Given::Rows(65, 1);
    wants[66] = Given::End;
    check(rt.alloc(), &says, &[], &wants)
}

#[test]
fn from_48_replies_on_a_batch_is_put_at_rest(rt: HostRuntime) -> Result<(), Fail> {
    let mut says = [Said::Rows(1); 50];
    says[48] = Said::Wait(500);
    says[49] = Said::Wait(500);
    let mut wants = [LATER; 52];
    wants[48] = Given::Wait(0);
    wants[49] = Given::Rows(1, 48);
    wants[50] = Given::Wait(500);
    wants[51] = Given::End;
    check(rt.alloc(), &says, &[], &wants)
}

#[test]
fn behind_47_replies_it_is_held(rt: HostRuntime) -> Result<(), Fail> {
    let mut says = [Said::Rows(1); 49];
    says[47] = Said::Wait(500);
    says[48] = Said::Wait(500);
    let mut wants = [LATER; 49];
    wants[47] = Given::Wait(100);
    wants[48] = Given::Wait(100);
    check(rt.alloc(), &says, &[], &wants)
}

#[test]
fn rows_are_held_for_100_ms(rt: HostRuntime) -> Result<(), Fail> {
    let says = [
        Said::Read,
        Said::Wait(500),
        Said::Rows(1),
        Said::Wait(500),
        Said::Read,
        Said::Rows(1),
        Said::Wait(500),
        Said::Wait(0),
        Said::Read,
        Said::Line(1),
        Said::Wait(500),
        Said::Rows(1),
        Said::Read,
        Said::Wait(30),
    ];
    let wants = [
        Given::Read,
        Given::Wait(500),
        LATER,
        Given::Wait(100),
        Given::Read,
        LATER,
        Given::Wait(1),
        Given::Wait(0),
        Given::Read,
        LATER,
        Given::Rows(1, 2),
        Given::Line(1),
        Given::Wait(500),
        LATER,
        Given::Read,
        Given::Wait(30),
        Given::Rows(3, 1),
        Given::End,
    ];
    // The clock goes back at last, which counts as no time.
    check(rt.alloc(), &says, &[1000, 1099, 1100, 900], &wants)
}
