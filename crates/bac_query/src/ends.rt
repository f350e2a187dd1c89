//! The line that says how a walk ended.

ghost use Rattle.std.specs.Prelude.{◌≡◌, ◌++◌, OnOk};
ghost use Rattle.bac_query.specs.Ends.{advice, cause_text, end_line, named, numbered_word};
ghost use Rattle.bac_query.specs.Ends.{refusal_text, why_text};

use bac_link::Refusal;
use bac_print::{abort_reason_name, error_code_name, push_number, reject_reason_name};
use bac_walk::{WalkFault, Why};
use std::alloc::AllocError;

/// What is told where the answer to a question is too long.
const TOO_LONG: &str =
    ": the answer is too long for one datagram; --index=0 and on reads an array in parts, \
     --count=20 a log";

/// Appends a word and a number after a blank.
fn push_numbered(text: &mut Vec<u8>, word: &[u8], n: u64) -> Result<(), AllocError>
    ensures { OnOk result (text.new.items ≡ text.old.items ++ numbered_word word.now n) }
{
    text.extend_from_slice(word)?;
    text.extend_from_slice(b" ")?;
    push_number(text, n)
}

/// Appends how a device refused: `refused: error CLASS CODE`, `refused: reject REASON` or
/// `refused: abort REASON`.
#[tactic(auto, unfolding(crate::specs::Ends::refusal_text))]
pub fn push_refusal(text: &mut Vec<u8>, refusal: Refusal) -> Result<(), AllocError>
    ensures { OnOk result (text.new.items ≡ text.old.items ++ refusal_text refusal) }
{
    text.extend_from_slice(b"refused: ")?;
    match refusal {
        Refusal::Error(class, code) => {
            push_numbered(text, b"error", u64::from(class))?;
            text.extend_from_slice(b" ")?;
            push_number(text, u64::from(code))
        }
        Refusal::Reject(reason) => push_numbered(text, b"reject", u64::from(reason)),
        Refusal::Abort(reason) => push_numbered(text, b"abort", u64::from(reason)),
    }
}

/// A name of the standard's, or that it has none.
#[tactic(auto, unfolding(crate::specs::Ends::named))]
fn named(name: &'static str) -> &'static str
    ensures { result.now ≡ named name.now }
{
    if name.is_empty() {
        "the standard has no name for it"
    } else {
        name
    }
}

/// What can be done where an answer is too long for one datagram.
#[tactic(auto, unfolding(crate::specs::Ends::advice))]
fn advice(reason: u8) -> &'static str
    ensures { result.now ≡ advice reason }
{
    if reason == 1 || reason == 4 || reason == 11 {
        TOO_LONG
    } else {
        ""
    }
}

/// Appends what a refusal means, in the standard's words (clauses 18.3 to 18.10).
#[tactic(auto, unfolding(crate::specs::Ends::cause_text))]
pub fn push_cause(text: &mut Vec<u8>, refusal: Refusal) -> Result<(), AllocError>
    ensures { OnOk result (text.new.items ≡ text.old.items ++ cause_text refusal) }
{
    match refusal {
        Refusal::Error(_, code) => text.extend_from_slice(named(error_code_name(code)).as_bytes()),
        Refusal::Reject(reason) => {
            text.extend_from_slice(named(reject_reason_name(reason)).as_bytes())
        }
        Refusal::Abort(reason) => {
            text.extend_from_slice(named(abort_reason_name(reason)).as_bytes())?;
            text.extend_from_slice(advice(reason).as_bytes())
        }
    }
}

/// Appends why a walk ended.
#[tactic(auto, unfolding(crate::specs::Ends::why_text))]
fn push_why(text: &mut Vec<u8>, why: Why) -> Result<(), AllocError>
    ensures { OnOk result (text.new.items ≡ text.old.items ++ why_text why) }
{
    match why {
        Why::CaughtUp => text.extend_from_slice(b"caught up"),
        Why::StepLimit => text.extend_from_slice(b"step limit"),
        Why::Fault(WalkFault::Lost) => text.extend_from_slice(b"lost"),
        Why::Fault(WalkFault::Refused(refusal)) => push_refusal(text, refusal),
        Why::Fault(WalkFault::BadReply) => text.extend_from_slice(b"bad reply"),
        Why::Memory => text.extend_from_slice(b"out of memory"),
    }
}

/// Appends the line of a walk's end: why it ended, and the number that comes next.
#[tactic(auto, unfolding(crate::specs::Ends::end_line))]
pub fn push_end(text: &mut Vec<u8>, why: Why, next: u32) -> Result<(), AllocError>
    ensures { OnOk result (text.new.items ≡ text.old.items ++ end_line why next) }
{
    push_why(text, why)?;
    text.extend_from_slice(b", next ")?;
    push_number(text, u64::from(next))?;
    text.extend_from_slice(b"\n")
}
