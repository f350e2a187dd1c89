//! The lines of a log: what is told while it is polled, and how that ended.

ghost use Rattle.std.specs.Prelude.{◌≡◌, ◌++◌, IfOk, OnOk};
ghost use Rattle.bac_device_poller.specs.Ending.{counted_text, doubt_line, earlier_text};
ghost use Rattle.bac_device_poller.specs.Ending.{ended_line};
ghost use Rattle.bac_device_poller.specs.Ending.{ending_text, fault_text, gone_text, hour_text};
ghost use Rattle.bac_device_poller.specs.Ending.{is_caught_up, later_text};
ghost use Rattle.bac_device_poller.specs.Ending.{line_text, on_text, summary_text, told_line};
ghost use Rattle.bac_poll.specs.Turns.{number_before};

use crate::counts::Counts;
use bac_poll::{Line, PollEnd};
use bac_print::push_number;
use bac_query::push_refusal;
use bac_walk::WalkFault;
use std::alloc::{AllocError, Global};

/// How the poll of a log ended.
#[derive(Clone, Copy, Debug, PartialEq, Eq)]
pub enum Ending {
    Poll(PollEnd),
    /// It had as many replies with records as it may have in this run, so there may be more.
    StepLimit,
    /// It began anew, or its numbers came round, once more than a log can have epochs.
    Epochs,
    /// Its device is silent.
    NotAsked,
}

/// The number before this one: the last that there is before 1.
fn number_before(number: u32) -> u32
    ensures { result ≡ number_before number }
{
    if number == 1 {
        return u32::MAX;
    }
    number.saturating_sub(1)
}

/// Appends by how many quarter hours its records are shown earlier than those on record.
fn push_earlier(text: &mut Vec<u8>, count: u32) -> Result<(), AllocError>
    ensures { OnOk result (text.new.items ≡ text.old.items ++ earlier_text count) }
{
    text.extend_from_slice(b"shown ")?;
    push_number(text, u64::from(count))?;
    text.extend_from_slice(b" quarter hours earlier")
}

/// The same of later ones.
fn push_later(text: &mut Vec<u8>, count: u32) -> Result<(), AllocError>
    ensures { OnOk result (text.new.items ≡ text.old.items ++ later_text count) }
{
    text.extend_from_slice(b"shown ")?;
    push_number(text, u64::from(count))?;
    text.extend_from_slice(b" quarter hours later")
}

/// Appends at which hour a log shows its records.
fn push_hour(text: &mut Vec<u8>, by: u32) -> Result<(), AllocError>
    ensures { OnOk result (text.new.items ≡ text.old.items ++ hour_text by) }
{
    if by < 100 {
        return push_earlier(text, 100 - by);
    }
    push_later(text, by - 100)
}

/// Appends where it goes on, if it does.
fn push_on(text: &mut Vec<u8>, first: u32) -> Result<(), AllocError>
    ensures { OnOk result (text.new.items ≡ text.old.items ++ on_text first) }
{
    text.extend_from_slice(b"goes on at ")?;
    push_number(text, u64::from(first))?;
    text.extend_from_slice(b", or began anew")
}

/// Appends a gap that may be none.
fn push_gone(text: &mut Vec<u8>, first: u32, last: u32) -> Result<(), AllocError>
    ensures { OnOk result (text.new.items ≡ text.old.items ++ gone_text first last) }
{
    text.extend_from_slice(b"dropped ")?;
    push_number(text, u64::from(first))?;
    text.extend_from_slice(b" to ")?;
    push_number(text, u64::from(last))?;
    text.extend_from_slice(b", or began anew")
}

/// Appends what isn't known of a log, by the numbers from which and up to which it is.
fn push_doubt(text: &mut Vec<u8>, first: u32, before: u32) -> Result<(), AllocError>
    ensures { OnOk result (text.new.items ≡ text.old.items ++ doubt_line first before) }
{
    if first == before {
        return push_on(text, first);
    }
    push_gone(text, first, number_before(before))
}

/// Appends what is told of a log while it is polled.
fn push_line(text: &mut Vec<u8>, line: Line) -> Result<(), AllocError>
    ensures { OnOk result (text.new.items ≡ text.old.items ++ line_text line) }
{
    match line {
        Line::AtHour(by) => push_hour(text, by),
        Line::AtHourOrBegan(by) => {
            push_hour(text, by)?;
            text.extend_from_slice(b", or began anew")
        }
        Line::BeganAnew => text.extend_from_slice(b"began anew"),
        Line::BeganOrDropped => text.extend_from_slice(b"began anew, or dropped records"),
        Line::DroppedOrBegan(first, before) => push_doubt(text, first, before),
    }
}

/// Appends why a poll failed.
pub(crate) fn push_fault(text: &mut Vec<u8>, fault: WalkFault) -> Result<(), AllocError>
    ensures { OnOk result (text.new.items ≡ text.old.items ++ fault_text fault) }
{
    match fault {
        WalkFault::Lost => text.extend_from_slice(b"lost"),
        WalkFault::Refused(refusal) => push_refusal(text, refusal),
        WalkFault::BadReply => text.extend_from_slice(b"bad reply"),
    }
}

/// Appends how the poll of a log ended.
fn push_ending(text: &mut Vec<u8>, why: Ending) -> Result<(), AllocError>
    ensures { OnOk result (text.new.items ≡ text.old.items ++ ending_text why) }
{
    match why {
        Ending::Poll(PollEnd::CaughtUp) => text.extend_from_slice(b"caught up"),
        Ending::Poll(PollEnd::SaysMore) => {
            text.extend_from_slice(b"shows no more, though it says that more is there")
        }
        Ending::Poll(PollEnd::ShowsNone) => {
            text.extend_from_slice(b"shows no record, and refuses its count")
        }
        Ending::Poll(PollEnd::NoneByNumber) => text.extend_from_slice(
            b"shows no record by number, and by time perhaps not all that it holds",
        ),
        Ending::Poll(PollEnd::Contradicts) => {
            text.extend_from_slice(b"its records contradict each other")
        }
        Ending::Poll(PollEnd::Fault(fault)) => push_fault(text, fault),
        Ending::StepLimit => text.extend_from_slice(b"step limit"),
        Ending::Epochs => text.extend_from_slice(b"began anew once too often"),
        Ending::NotAsked => text.extend_from_slice(b"not asked"),
    }
}

/// The line of a log with this name, while it is polled.
pub fn told_line(alloc: Global, name: &[u8], line: Line) -> Result<Vec<u8>, AllocError>
    ensures { IfOk result (λ text. text.items ≡ told_line name.now line) }
{
    let mut text = Vec::new(alloc);
    text.extend_from_slice(name)?;
    text.extend_from_slice(b": ")?;
    push_line(&mut text, line)?;
    text.extend_from_slice(b"\n")?;
    Ok(text)
}

/// Appends a number and what is counted.
pub fn push_count(text: &mut Vec<u8>, count: u64, one: &[u8], many: &[u8]) -> Result<(), AllocError>
    ensures { OnOk result (text.new.items ≡ text.old.items ++ counted_text count one.now many.now) }
{
    push_number(text, count)?;
    text.extend_from_slice(if count == 1 { one } else { many })
}

/// Appends how much was kept of a log, how its poll ended, and the number that comes next.
fn push_summary(text: &mut Vec<u8>, kept: Counts, why: Ending, next: u32) -> Result<(), AllocError>
    ensures { OnOk result (text.new.items ≡ text.old.items ++ summary_text kept why next) }
{
    push_count(text, kept.records, b" record ", b" records ")?;
    push_count(text, kept.gaps, b" gap ", b" gaps ")?;
    push_ending(text, why)?;
    text.extend_from_slice(b", next ")?;
    push_number(text, u64::from(next))
}

/// The line of a log whose poll has ended.
pub fn ended_line(
    alloc: Global,
    name: &[u8],
    kept: Counts,
    why: Ending,
    next: u32,
) -> Result<Vec<u8>, AllocError>
    ensures { IfOk result (λ line. line.items ≡ ended_line name.now kept why next) }
{
    let mut line = Vec::new(alloc);
    line.extend_from_slice(name)?;
    line.extend_from_slice(b" ")?;
    push_summary(&mut line, kept, why, next)?;
    line.extend_from_slice(b"\n")?;
    Ok(line)
}

/// Whether a log is caught up.
pub fn is_caught_up(why: Ending) -> bool
    ensures { result ≡ is_caught_up why }
{
    match why {
        Ending::Poll(PollEnd::CaughtUp) => true,
        Ending::Poll(PollEnd::SaysMore) => false,
        Ending::Poll(PollEnd::ShowsNone) => false,
        Ending::Poll(PollEnd::NoneByNumber) => false,
        Ending::Poll(PollEnd::Contradicts) => false,
        Ending::Poll(PollEnd::Fault(_)) => false,
        Ending::StepLimit => false,
        Ending::Epochs => false,
        Ending::NotAsked => false,
    }
}
