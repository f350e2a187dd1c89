//! Refusals that are no last word.

ghost use Rattle.std.specs.Prelude.{◌≡◌};
ghost use Rattle.bac_answers.specs.Refusals.{is_busy, is_long, is_passing, is_too_long};

use bac_link::{Refusal, Verdict};

/// Abort reasons that pass (clause 18.10): preempted-by-higher-priority-task,
/// application-exceeded-reply-time, out-of-resources and tsm-timeout.
const PASSING: [u8; 4] = [3, 8, 9, 10];

/// Error class device (clause 18.1).
const DEVICE_CLASS: u32 = 0;

/// Error code device-busy.
const DEVICE_BUSY: u32 = 3;

/// Abort reasons of what doesn't fit one answer (clause 18.10): buffer-overflow,
/// segmentation-not-supported, and an APDU that is too long.
const TOO_LONG: [u8; 3] = [1, 4, 11];

// Whether a refusal passes.
fn is_passing(refusal: Refusal) -> bool
    ensures { result ≡ is_passing refusal }
{
    match refusal {
        Refusal::Error(class, code) => class == DEVICE_CLASS && code == DEVICE_BUSY,
        Refusal::Reject(_) => false,
        Refusal::Abort(reason) => {
            reason == PASSING[0]
                || reason == PASSING[1]
                || reason == PASSING[2]
                || reason == PASSING[3]
        }
    }
}

/// Whether an answer is one.
pub fn is_busy(verdict: Verdict) -> bool
    ensures { result ≡ is_busy verdict }
{
    match verdict {
        Verdict::Ack => false,
        Verdict::Refused(refusal) => is_passing(refusal),
        Verdict::BadReply => false,
    }
}

// Whether a refusal says that the answer would be too long.
fn is_long(refusal: Refusal) -> bool
    ensures { result ≡ is_long refusal }
{
    match refusal {
        Refusal::Error(_, _) => false,
        Refusal::Reject(_) => false,
        Refusal::Abort(reason) => reason == TOO_LONG[0]
            || reason == TOO_LONG[1]
            || reason == TOO_LONG[2],
    }
}

/// Whether an answer says so.
pub fn is_too_long(verdict: Verdict) -> bool
    ensures { result ≡ is_too_long verdict }
{
    match verdict {
        Verdict::Ack => false,
        Verdict::Refused(refusal) => is_long(refusal),
        Verdict::BadReply => false,
    }
}
