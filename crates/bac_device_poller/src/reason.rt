//! The line behind that of a log whose poll failed: why it did.

ghost use Rattle.std.specs.Prelude.{◌≡◌, IfOk, option_map};
ghost use Rattle.bac_device_poller.specs.Ending.{bad_reply_line, fault_line, reason_line};
ghost use Rattle.bac_device_poller.specs.Ending.{refused_line};

use crate::ending::Ending;
use crate::telling::line_of;
use bac_link::Refusal;
use bac_poll::PollEnd;
use bac_query::push_cause;
use bac_walk::WalkFault;
use std::alloc::{AllocError, Global};

/// What a refusal means.
pub(crate) fn refused_line(
    alloc: Global,
    name: &[u8],
    refusal: Refusal,
) -> Result<Vec<u8>, AllocError>
    ensures { IfOk result (λ line. line.items ≡ refused_line name.now refusal) }
{
    let mut line = Vec::new(alloc);
    line.extend_from_slice(name)?;
    line.extend_from_slice(b": ")?;
    push_cause(&mut line, refusal)?;
    line.extend_from_slice(b"\n")?;
    Ok(line)
}

// Which tool says what is wrong with a reply.
fn bad_reply_line(alloc: Global, name: &[u8]) -> Result<Vec<u8>, AllocError>
    ensures { IfOk result (λ line. line.items ≡ bad_reply_line name.now) }
{
    line_of(
        alloc,
        name,
        b": the reply isn't as asked for: bac log tells what is wrong with it\n",
    )
}

// The line that tells it of a log with this name, if there is one.
fn fault_line(alloc: Global, name: &[u8], fault: WalkFault) -> Result<Option<Vec<u8>>, AllocError>
    ensures { IfOk result (λ line. option_map (λ l. l.items) line ≡ fault_line name.now fault) }
{
    match fault {
        WalkFault::Lost => Ok(None),
        WalkFault::Refused(refusal) => Ok(Some(refused_line(alloc, name, refusal)?)),
        WalkFault::BadReply => Ok(Some(bad_reply_line(alloc, name)?)),
    }
}

/// The same of how a poll ended.
pub(crate) fn reason_line(
    alloc: Global,
    name: &[u8],
    why: Ending,
) -> Result<Option<Vec<u8>>, AllocError>
    ensures { IfOk result (λ line. option_map (λ l. l.items) line ≡ reason_line name.now why) }
{
    match why {
        Ending::Poll(PollEnd::Fault(fault)) => fault_line(alloc, name, fault),
        Ending::Poll(PollEnd::CaughtUp) => Ok(None),
        Ending::Poll(PollEnd::SaysMore) => Ok(None),
        Ending::Poll(PollEnd::ShowsNone) => Ok(None),
        Ending::Poll(PollEnd::NoneByNumber) => Ok(None),
        Ending::Poll(PollEnd::Contradicts) => Ok(None),
        Ending::StepLimit => Ok(None),
        Ending::Epochs => Ok(None),
        Ending::NotAsked => Ok(None),
    }
}
