//! The lines of a device, beside those of its logs' polls.

ghost use Rattle.std.specs.Prelude.{◌≡◌, ◌++◌, IfOk, OnOk, option_map};
ghost use Rattle.bac_device_poller.specs.Telling.{IsToldBy, alone_line, another_line};
ghost use Rattle.bac_device_poller.specs.Telling.{full_line};
ghost use Rattle.bac_device_poller.specs.Telling.{known_now_line, log_called, means_text};
ghost use Rattle.bac_device_poller.specs.Telling.{new_line, no_list_line, not_asked_line, not_text};
ghost use Rattle.bac_device_poller.specs.Telling.{other_text, others_line};
ghost use Rattle.bac_device_poller.specs.Telling.{rejected_line, silent_line, that_text};
ghost use Rattle.bac_device_poller.specs.Telling.{unlisted_line, unlisted_reason, untold_line};
ghost use Rattle.bac_device_poller.specs.Telling.{who_text};

use crate::ending::push_fault;
use crate::reason::refused_line;
use bac_device_poll::{NoRoute, Others, Who};
use bac_drive::Next;
use bac_print::push_number;
use bac_walk::WalkFault;
use bac_wire::ObjectId;
use std::alloc::{AllocError, Global};

/// A line is told: one of a log that is caught up, or of what is new, is printed, and any other
/// goes to the errors.
pub fn told_by(good: bool, line: Vec<u8>) -> Next
    ensures { IsToldBy good line.items result }
{
    if good {
        Next::Print(line)
    } else {
        Next::Warn(line)
    }
}

// Appends by what a device tells who it is.
fn push_who(text: &mut Vec<u8>, who: &Who) -> Result<(), AllocError>
    ensures { OnOk result (text.new.items ≡ text.old.items ++ who_text who.now) }
{
    match who {
        Who::Device(device) => push_number(text, u64::from(device.instance())),
        Who::Name(name) => text.extend_from_slice(name.octets()),
        Who::Address => text.extend_from_slice(b"one without a name"),
    }
}

// Appends the instance on record, if there is one.
fn push_not(text: &mut Vec<u8>, was: Option<u32>) -> Result<(), AllocError>
    ensures { OnOk result (text.new.items ≡ text.old.items ++ not_text was) }
{
    match was {
        Some(was) => {
            text.extend_from_slice(b", not ")?;
            push_number(text, u64::from(was))
        }
        None => Ok(()),
    }
}

// Appends what the device on record doesn't tell any more.
fn push_that(text: &mut Vec<u8>, was: Option<u32>) -> Result<(), AllocError>
    ensures { OnOk result (text.new.items ≡ text.old.items ++ that_text was) }
{
    match was {
        Some(was) => {
            text.extend_from_slice(b"that it is ")?;
            push_number(text, u64::from(was))
        }
        None => text.extend_from_slice(b"its name"),
    }
}

// Appends which device answers, and which is on record.
#[tactic(auto, unfolding(crate::specs::Telling::other_text))]
fn push_other(text: &mut Vec<u8>, who: &Who, was: Option<u32>) -> Result<(), AllocError>
    ensures { OnOk result (text.new.items ≡ text.old.items ++ other_text who.now was) }
{
    push_who(text, who)?;
    push_not(text, was)
}

/// Another device answers than the one with this instance.
pub(crate) fn another_line(
    alloc: Global,
    device: &[u8],
    who: &Who,
    was: Option<u32>,
) -> Result<Vec<u8>, AllocError>
    ensures { IfOk result (λ line. line.items ≡ another_line device.now who.now was) }
{
    let mut line = Vec::new(alloc);
    line.extend_from_slice(device)?;
    line.extend_from_slice(b": another device answers: ")?;
    push_other(&mut line, who, was)?;
    line.extend_from_slice(b"\n")?;
    Ok(line)
}

/// The device doesn't tell that it is the one on record.
pub(crate) fn untold_line(
    alloc: Global,
    device: &[u8],
    was: Option<u32>,
) -> Result<Vec<u8>, AllocError>
    ensures { IfOk result (λ line. line.items ≡ untold_line device.now was) }
{
    let mut line = Vec::new(alloc);
    line.extend_from_slice(device)?;
    line.extend_from_slice(b": the device doesn't tell ")?;
    push_that(&mut line, was)?;
    line.extend_from_slice(b"\n")?;
    Ok(line)
}

// Appends what a device is known by.
fn push_means(text: &mut Vec<u8>, who: &Who) -> Result<(), AllocError>
    ensures { OnOk result (text.new.items ≡ text.old.items ++ means_text who.now) }
{
    match who {
        Who::Device(_) => text.extend_from_slice(b"instance"),
        Who::Name(_) => text.extend_from_slice(b"name"),
        Who::Address => text.extend_from_slice(b"address"),
    }
}

/// It tells neither an instance nor a name.
pub(crate) fn alone_line(alloc: Global, device: &[u8]) -> Result<Vec<u8>, AllocError>
    ensures { IfOk result (λ line. line.items ≡ alone_line device.now) }
{
    line_of(
        alloc,
        device,
        b": the device is known by its address alone\n",
    )
}

/// It tells more of itself than before.
pub(crate) fn known_now_line(alloc: Global, device: &[u8], who: &Who) -> Result<Vec<u8>, AllocError>
    ensures { IfOk result (λ line. line.items ≡ known_now_line device.now who.now) }
{
    let mut line = Vec::new(alloc);
    line.extend_from_slice(device)?;
    line.extend_from_slice(b": the device is known by its ")?;
    push_means(&mut line, who)?;
    line.extend_from_slice(b" now\n")?;
    Ok(line)
}

/// It didn't tell its Object_List.
pub(crate) fn unlisted_line(
    alloc: Global,
    device: &[u8],
    why: WalkFault,
) -> Result<Vec<u8>, AllocError>
    ensures { IfOk result (λ line. line.items ≡ unlisted_line device.now why) }
{
    let mut line = Vec::new(alloc);
    line.extend_from_slice(device)?;
    line.extend_from_slice(b" didn't tell its Object_List: ")?;
    push_fault(&mut line, why)?;
    line.extend_from_slice(b"\n")?;
    Ok(line)
}

// What is wrong with the reply.
fn no_list_line(alloc: Global, device: &[u8]) -> Result<Vec<u8>, AllocError>
    ensures { IfOk result (λ line. line.items ≡ no_list_line device.now) }
{
    line_of(
        alloc,
        device,
        b": the reply doesn't acknowledge this request, is segmented, or can't be read\n",
    )
}

/// Behind that line what it means, if there is more to say.
pub(crate) fn unlisted_reason(
    alloc: Global,
    device: &[u8],
    why: WalkFault,
) -> Result<Option<Vec<u8>>, AllocError>
    ensures { IfOk result (λ line. option_map (λ l. l.items) line
        ≡ unlisted_reason device.now why) }
{
    match why {
        WalkFault::Lost => Ok(None),
        WalkFault::Refused(refusal) => Ok(Some(refused_line(alloc, device, refusal)?)),
        WalkFault::BadReply => Ok(Some(no_list_line(alloc, device)?)),
    }
}

/// It has so many objects whose records aren't kept.
pub(crate) fn others_line(
    alloc: Global,
    device: &[u8],
    others: Others,
) -> Result<Vec<u8>, AllocError>
    ensures { IfOk result (λ line. line.items ≡ others_line device.now others) }
{
    let mut line = Vec::new(alloc);
    line.extend_from_slice(device)?;
    line.extend_from_slice(b": not kept: ")?;
    push_number(&mut line, others.multiple)?;
    line.extend_from_slice(b" Trend Log Multiple, ")?;
    push_number(&mut line, others.event)?;
    line.extend_from_slice(b" Event Log\n")?;
    Ok(line)
}

/// A line that begins with what is told of.
pub(crate) fn line_of(alloc: Global, called: &[u8], rest: &[u8]) -> Result<Vec<u8>, AllocError>
    ensures { IfOk result (λ line. line.items ≡ called.now ++ rest.now) }
{
    let mut line = Vec::new(alloc);
    line.extend_from_slice(called)?;
    line.extend_from_slice(rest)?;
    Ok(line)
}

/// The router that it is behind has no route to its network.
pub(crate) fn rejected_line(
    alloc: Global,
    device: &[u8],
    reject: NoRoute,
) -> Result<Vec<u8>, AllocError>
    ensures { IfOk result (λ line. line.items ≡ rejected_line device.now reject) }
{
    let mut line = Vec::new(alloc);
    line.extend_from_slice(device)?;
    line.extend_from_slice(b": the router has no route to network ")?;
    push_number(&mut line, u64::from(reject.network))?;
    line.extend_from_slice(b"\n")?;
    Ok(line)
}

/// None of its questions was answered.
pub(crate) fn silent_line(alloc: Global, device: &[u8]) -> Result<Vec<u8>, AllocError>
    ensures { IfOk result (λ line. line.items ≡ silent_line device.now) }
{
    line_of(alloc, device, b": no answer\n")
}

/// How lines call a log of a device.
pub(crate) fn log_called(alloc: Global, device: &[u8], log: ObjectId) -> Result<Vec<u8>, AllocError>
    ensures { IfOk result (λ text. text.items ≡ log_called device.now log) }
{
    let mut text = Vec::new(alloc);
    text.extend_from_slice(device)?;
    text.extend_from_slice(b" ")?;
    push_number(&mut text, u64::from(log.instance()))?;
    Ok(text)
}

/// A log is new.
pub(crate) fn new_line(alloc: Global, called: &[u8]) -> Result<Vec<u8>, AllocError>
    ensures { IfOk result (λ line. line.items ≡ new_line called.now) }
{
    line_of(alloc, called, b" is new\n")
}

/// No id is left for it.
pub(crate) fn full_line(alloc: Global, called: &[u8]) -> Result<Vec<u8>, AllocError>
    ensures { IfOk result (λ line. line.items ≡ full_line called.now) }
{
    line_of(alloc, called, b" is new, and no id is left for it\n")
}

/// A log isn't asked.
pub(crate) fn not_asked_line(alloc: Global, called: &[u8]) -> Result<Vec<u8>, AllocError>
    ensures { IfOk result (λ line. line.items ≡ not_asked_line called.now) }
{
    line_of(alloc, called, b" not asked\n")
}
