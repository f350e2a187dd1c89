//! A walk of a trend log into two sinks, over a link that answers from a list. What a reply is
//! taken for is in examples/check/takes.talk, field by field, and how walks end in asking.talk and
//! records.talk.

ghost use Rattle.std.specs.Prelude.{◌≡◌};

use bac_link::{Item, Transactions};
use bac_log::{Datum, Entry};
use bac_scripted_link::ScriptedLink;
use bac_walk::{Ended, Gap, Numbered, Progress, Sink, Walk, stop_and_resume};
use bac_wire::{Date4, ObjectId, Time4};
use std::alloc::Global;

/// An ACK with records 1 and 2, invoke ID 1.
const FIRST: [u8; 63] = [
    0x81, 0x0a, 0, 0x3f, 1, 0, 0x30, 1, 0x1a, 0x0c, 5, 0, 0, 1, 0x19, 0x83, 0x3a, 5, 0xc0, 0x49, 2,
    0x5e, 0x0e, 0xa4, 0x7c, 5, 6, 1, 0xb4, 7, 8, 9, 0x0a, 0x0f, 0x1e, 0x39, 0, 0x1f, 0x2a, 4, 0,
    0x0e, 0xa4, 0x7c, 5, 6, 1, 0xb4, 7, 8, 9, 0x0a, 0x0f, 0x1e, 0x39, 0, 0x1f, 0x2a, 4, 0, 0x5f,
    0x69, 1,
];

/// An ACK with record 2, invoke ID 2.
const SECOND: [u8; 44] = [
    0x81, 0x0a, 0, 0x2c, 1, 0, 0x30, 2, 0x1a, 0x0c, 5, 0, 0, 1, 0x19, 0x83, 0x3a, 5, 0xc0, 0x49, 1,
    0x5e, 0x0e, 0xa4, 0x7c, 5, 6, 1, 0xb4, 7, 8, 9, 0x0a, 0x0f, 0x1e, 0x39, 0, 0x1f, 0x2a, 4, 0,
    0x5f, 0x69, 2,
];

/// An ACK without records, invoke ID 1.
const EMPTY: [u8; 23] = [
    0x81, 0x0a, 0, 0x17, 1, 0, 0x30, 1, 0x1a, 0x0c, 5, 0, 0, 1, 0x19, 0x83, 0x3a, 5, 0, 0x49, 0,
    0x5e, 0x5f,
];

/// The record of these ACKs: 2024-05-06T07:08:09.10, Enumerated 0, flags 0000.
const RECORD: Entry = Entry {
    date: Date4 {
        year: 124,
        month: 5,
        day: 6,
        weekday: 1,
    },
    time: Time4 {
        hour: 7,
        minute: 8,
        second: 9,
        hundredth: 10,
    },
    datum: Datum::Enumerated(0),
    flags: Some(0),
};

fn logged(number: u32) -> Item {
    Item::Logged {
        number,
        entry: RECORD,
    }
}

/// A walk of Trend Log 1 from this number on.
pub(crate) fn walk_from(s: u32) -> Option<Walk> {
    Walk::from_number(ObjectId::new(20, 1)?, s)
}

/// Keeps what it is given, and wants no more after the record of this number.
#[derive(Drop)]
struct StopsAt {
    number: u32,
    items: Vec<Item>,
}

impl Sink for StopsAt {
    ghost puts = { λ old gap item taken new. new.number ≡ old.number };

    fn put(&mut self, gap: Option<Gap>, item: Numbered) -> bool {
        if let Some(gap) = gap {
            let _ = self.items.push(Item::Gap {
                first: gap.first,
                before: gap.before,
            });
        }
        let _ = self.items.push(Item::Logged {
            number: item.number,
            entry: item.entry,
        });
        item.number != self.number
    }
}

/// Whether an ACK without records makes the walk ask for the oldest ones next.
fn asks_oldest(walk: &mut Walk) -> bool {
    matches!(walk.take(&EMPTY[9..]), Ok(Progress::AskOldest))
}

/// Whether the walk is caught up when it is given record 2.
fn is_caught_up(walk: &mut Walk) -> bool {
    matches!(walk.take(&SECOND[9..]), Ok(Progress::CaughtUp))
}

/// Whether each of three answers is taken so, the first again after a restart, and the number that
/// came next before it.
fn restart() -> Option<([bool; 3], u32)> {
    let mut walk = walk_from(5)?;
    let asks = asks_oldest(&mut walk);
    let is_caught_up = is_caught_up(&mut walk);
    let next = walk.next_number();
    walk.restart();
    Some(([asks, is_caught_up, asks_oldest(&mut walk)], next))
}

#[test]
fn a_restarted_walk_asks_by_number_again(rt: HostRuntime) {
    assert_eq!(rt; restart(), Some(([true; 3], 5)));
}

/// Walks from number 1 on into one sink, and then one step into another: how both ended, and the
/// number that comes next.
fn resume(sink: &mut StopsAt, rest: &mut StopsAt) -> Option<((Ended, Ended), u32)> {
    let mut walk = walk_from(1)?;
    let replies: [&[u8]; 2] = [&FIRST, &SECOND];
    let mut link = ScriptedLink::new(&replies);
    let mut transactions = Transactions::new(0);
    let ended = stop_and_resume(&mut link, &mut transactions, &mut walk, 5, sink, 1, rest);
    Some((ended, walk.next_number()))
}

fn stops_at(alloc: Global, number: u32) -> StopsAt {
    StopsAt {
        number,
        items: Vec::new(alloc),
    }
}

#[test]
fn a_walk_is_resumed_into_another_sink(rt: HostRuntime) {
    let mut sink = stops_at(rt.alloc(), 1);
    let mut rest = stops_at(rt.alloc(), 9);
    let resumed = resume(&mut sink, &mut rest);
    assert_eq!(rt; resumed, Some(((Ended::Stopped, Ended::StepLimit), 3)));
    let (first, second) = (sink.items.as_slice(), rest.items.as_slice());
    assert_eq!(rt;
        (first, second),
        ([logged(1)].as_slice(), [logged(2)].as_slice())
    );
}
