//! A device that refuses its Object_Identifier, whose Object_List is too long for one answer, and
//! that is busy, and then silent, as its log is polled.

use bac_device_poll::{DevicePoll, Known, Question, Step, Turn};
use bac_link::Request;
use bac_walk::Count;
use bac_wire::{Datagram, ObjectId, Stamp};
use std::alloc::{AllocError, Global};
use std::test::Fail;

/// What comes of a question.
#[derive(Clone, Copy)]
enum Comes {
    /// An answer, in hexadecimal digits.
    Answer(&'static str),
    /// An I-Am of Device 4711.
    IAm,
    /// Nothing.
    Nothing,
    /// The poll of a log had ended.
    GoesOn,
}

/// What comes, how many entries that brings, how it goes on, and then what is asked: the type and
/// the instance of an object, its property and the index; zeros: no property.
#[derive(Clone, Copy)]
struct Row {
    comes: Comes,
    entries: usize,
    step: u8,
    asks: [u32; 4],
}

/// How a row writes that an index isn't asked for.
const WHOLE: u32 = 9999;

fn from(comes: Comes, entries: usize, step: u8, asks: [u32; 4]) -> Row {
    Row {
        comes,
        entries,
        step,
        asks,
    }
}

/// The device's answers, one after the other.
fn rows() -> [Row; 19] {
    [
        // Error object, unknown-object: Who-Is.
        from(
            Comes::Answer("810a000d010050010c9101911f"),
            0,
            0,
            [0, 0, 0, 0],
        ),
        // Time_Of_Device_Restart.
        from(Comes::IAm, 1, 0, [8, 4711, 203, WHOLE]),
        // 2026-03-29T02:30:00.00; Database_Revision.
        from(
            Comes::Answer("810a001e010030010c0c0200126719cb3e2ea47e031d07b4021e00002f3f"),
            0,
            0,
            [8, 4711, 155, WHOLE],
        ),
        // 7; Local_Date.
        from(
            Comes::Answer("810a0014010030010c0c02001267199b3e21073f"),
            0,
            0,
            [8, 4711, 56, WHOLE],
        ),
        // 2026-03-29; Local_Time.
        from(
            Comes::Answer("810a0017010030010c0c0200126719383ea47e031d073f"),
            0,
            0,
            [8, 4711, 57, WHOLE],
        ),
        // 02:30:10.00; Object_List.
        from(
            Comes::Answer("810a0017010030010c0c0200126719393eb4021e0a003f"),
            1,
            0,
            [8, 4711, 76, WHOLE],
        ),
        // Abort 9: again, later.
        from(
            Comes::Answer("810a00090100710109"),
            0,
            1,
            [8, 4711, 76, WHOLE],
        ),
        // Abort 4: how many elements there are.
        from(Comes::Answer("810a00090100710104"), 0, 0, [8, 4711, 76, 0]),
        // 3 of them.
        from(
            Comes::Answer("810a0016010030010c0c02001267194c29003e21033f"),
            0,
            0,
            [8, 4711, 76, 1],
        ),
        // The device.
        from(
            Comes::Answer("810a0019010030010c0c02001267194c29013ec4020012673f"),
            0,
            0,
            [8, 4711, 76, 2],
        ),
        // Trend Log 1.
        from(
            Comes::Answer("810a0019010030010c0c02001267194c29023ec4050000013f"),
            0,
            0,
            [8, 4711, 76, 3],
        ),
        // Trend Log Multiple 5: a new log, and one of a type that isn't kept.
        from(
            Comes::Answer("810a0019010030010c0c02001267194c29033ec406c000053f"),
            2,
            0,
            [20, 1, 77, WHOLE],
        ),
        // "AHU"; Log_DeviceObjectProperty.
        from(
            Comes::Answer("810a0017010030010c0c05000001194d3e74004148553f"),
            0,
            0,
            [20, 1, 132, WHOLE],
        ),
        // The Present_Value of Analog Input 2; Units.
        from(
            Comes::Answer("810a0019010030010c0c0500000119843e0c0000000219553f"),
            0,
            0,
            [0, 2, 117, WHOLE],
        ),
        // Degrees Celsius; Description.
        from(
            Comes::Answer("810a0014010030010c0c0000000219753e913e3f"),
            0,
            0,
            [0, 2, 28, WHOLE],
        ),
        // Error property, unknown-property: the log is named, and its records are counted.
        from(
            Comes::Answer("810a000d010050010c91029120"),
            2,
            0,
            [20, 1, 145, WHOLE],
        ),
        // Error device, device-busy: again, later.
        from(
            Comes::Answer("810a000d010050010c91009103"),
            0,
            1,
            [20, 1, 145, WHOLE],
        ),
        // The log is lost.
        from(Comes::Nothing, 0, 2, [0, 0, 0, 0]),
        // It was the last one.
        from(Comes::GoesOn, 0, 3, [0, 0, 0, 0]),
    ]
}

/// What is asked, as a row has it.
fn asked(poll: &DevicePoll) -> [u32; 4] {
    match poll.question() {
        Question::Confirmed(Request::ReadProperty(asked)) => [
            u32::from(asked.object.kind()),
            asked.object.instance(),
            asked.property,
            asked.index.unwrap_or(WHOLE),
        ],
        Question::Confirmed(_) => [1, 1, 1, 1],
        Question::WhoIs => [0, 0, 0, 0],
        Question::Nothing => [0, 0, 0, 0],
    }
}

/// How it goes on, as a row has it.
fn number_of(step: Step) -> u8 {
    match step {
        Step::Ask => 0,
        Step::AskLater => 1,
        Step::GoOn => 2,
        Step::End(_) => 3,
    }
}

/// An answer.
fn answer(
    alloc: Global,
    poll: &mut DevicePoll,
    digits: &str,
    now: Stamp,
) -> Result<Turn, AllocError> {
    let octets = match hex::decode(alloc, digits) {
        Ok(octets) => octets,
        Err(_) => Vec::new(alloc),
    };
    match Datagram::of(octets.as_slice()) {
        Some(datagram) => poll.take(alloc, &datagram, now),
        None => poll.lose(alloc),
    }
}

/// What comes of a row.
fn come(
    alloc: Global,
    poll: &mut DevicePoll,
    comes: Comes,
    now: Stamp,
) -> Result<Turn, AllocError> {
    match comes {
        Comes::Answer(digits) => answer(alloc, poll, digits, now),
        Comes::IAm => poll.hear_i_am(alloc, ObjectId::new(8, 4711)),
        Comes::Nothing => poll.lose(alloc),
        Comes::GoesOn => poll.go_on(alloc),
    }
}

#[test]
fn device_is_polled(rt: HostRuntime) -> Result<(), Fail> {
    let alloc = rt.alloc();
    let known = Known {
        who: None,
        revision: None,
        whole: true,
        others: None,
        stopped: Vec::new(alloc),
    };
    let now = Stamp::new(2026, 3, 29, 2, 30, 0, 0).ok_or("no moment")?;
    let mut poll = DevicePoll::new(alloc, known, Vec::new(alloc), Count::most(), 3, true);
    assert!(rt; asked(&poll) == [8, 4_194_303, 75, WHOLE]);
    for row in rows() {
        let turn = come(alloc, &mut poll, row.comes, now)?;
        assert!(rt; turn.entries.len() == row.entries);
        assert!(rt; number_of(turn.step) == row.step);
        assert!(rt; asked(&poll) == row.asks);
    }
    Ok(())
}
