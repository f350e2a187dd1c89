//! What comes of the questions of a device's poll, and what is asked.

use bac_device_poll::{Begin, DevicePoll, Known, LogTask, Question, Turn, Who};
use bac_link::Request;
use bac_poll::Told;
use bac_walk::Count;
use bac_wire::{Datagram, ObjectId, Stamp};
use std::alloc::{AllocError, Global};
use std::test::Fail;

/// A moment of this machine's clock.
pub(crate) fn now() -> Result<Stamp, Fail> {
    let now = Stamp::new(2026, 3, 29, 2, 30, 0, 0).ok_or("no moment")?;
    Ok(now)
}

/// A device with one log on record, at revision 7, which is known by this instance, if by any. All
/// logs of its list are kept, or that one alone.
pub(crate) fn device(
    alloc: Global,
    instance: Option<u32>,
    whole: bool,
) -> Result<DevicePoll, Fail> {
    let who = match instance {
        Some(instance) => Some(Who::Device(ObjectId::new(8, instance).ok_or("no device")?)),
        None => None,
    };
    let known = Known {
        who,
        revision: Some(7),
        whole,
        others: None,
        stopped: Vec::new(alloc),
    };
    let log = ObjectId::new(20, 1).ok_or("no log")?;
    let task = LogTask::new(log, Begin::Starting(None, Told::nothing(alloc)));
    let mut logs = Vec::new(alloc);
    logs.push(task.ok_or("no trend log")?)?;
    Ok(DevicePoll::new(alloc, known, logs, Count::most(), 3, false))
}

/// An answer in hexadecimal digits, or none.
pub(crate) fn come(
    alloc: Global,
    poll: &mut DevicePoll,
    digits: &str,
    now: Stamp,
) -> Result<Turn, AllocError> {
    let octets = match hex::decode(alloc, digits) {
        Ok(octets) => octets,
        Err(_) => Vec::new(alloc),
    };
    if octets.is_empty() {
        return poll.lose(alloc);
    }
    match Datagram::of(octets.as_slice()) {
        Some(datagram) => poll.take(alloc, &datagram, now),
        None => poll.lose(alloc),
    }
}

/// The property that is asked for, and its index; 0: none is.
pub(crate) fn asked(poll: &DevicePoll) -> (u32, Option<u32>) {
    match poll.question() {
        Question::Confirmed(Request::ReadProperty(asked)) => (asked.property, asked.index),
        Question::Confirmed(_) => (0, None),
        Question::WhoIs => (0, None),
        Question::Nothing => (0, None),
    }
}
