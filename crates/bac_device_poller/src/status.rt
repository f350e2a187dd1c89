//! The status that a poll leaves.

ghost use Rattle.std.specs.Prelude.{◌≡◌};
ghost use Rattle.bac_device_poller.specs.Status.{code, greater_of, status_at, status_of};

use crate::ending::Ending;
use bac_device_poll::DeviceEnd;
use bac_poll::PollEnd;
use bac_walk::WalkFault;

/// The status that a poll leaves: the greatest of those of its logs.
#[derive(Clone, Copy, Debug, PartialEq, Eq)]
pub enum Status {
    /// Each log is caught up.
    Done,
    /// A device didn't answer or can't be reached, or a log wasn't asked.
    NoReply,
    /// A request was refused, or another device answers than the one on record, or another row's.
    Refused,
    /// A reply can't be read, or records aren't as they were announced.
    BadReply,
    /// The archive has no number left for a log, or for an epoch of one.
    File,
    /// A log ended at its step limit, so there may be more.
    StepLimit,
}

impl Status {
    /// The status of a program that ends with it.
    pub fn code(self) -> u8
        ensures { result ≡ code self }
    {
        match self {
            Status::Done => 0,
            Status::NoReply => 2,
            Status::Refused => 3,
            Status::BadReply => 4,
            Status::File => 6,
            Status::StepLimit => 8,
        }
    }

    /// The greater one of both.
    pub fn or_greater(self, other: Status) -> Status
        ensures { result ≡ greater_of self other }
    {
        if self.code() < other.code() {
            other
        } else {
            self
        }
    }
}

/// That of a log whose poll ended so.
pub fn status_of(why: Ending) -> Status
    ensures { result ≡ status_of why }
{
    match why {
        Ending::Poll(PollEnd::CaughtUp) => Status::Done,
        Ending::Poll(PollEnd::SaysMore) => Status::BadReply,
        Ending::Poll(PollEnd::ShowsNone) => Status::Refused,
        Ending::Poll(PollEnd::NoneByNumber) => Status::BadReply,
        Ending::Poll(PollEnd::Contradicts) => Status::BadReply,
        Ending::Poll(PollEnd::Fault(WalkFault::Lost)) => Status::NoReply,
        Ending::Poll(PollEnd::Fault(WalkFault::Refused(_))) => Status::Refused,
        Ending::Poll(PollEnd::Fault(WalkFault::BadReply)) => Status::BadReply,
        Ending::StepLimit => Status::StepLimit,
        Ending::Epochs => Status::File,
        Ending::NotAsked => Status::NoReply,
    }
}

/// That of a device of which nothing more is asked, for this reason.
pub fn status_at(why: DeviceEnd) -> Status
    ensures { result ≡ status_at why }
{
    match why {
        DeviceEnd::Done => Status::Done,
        DeviceEnd::Foreign => Status::Refused,
        DeviceEnd::Silent => Status::NoReply,
        DeviceEnd::Unreached => Status::NoReply,
    }
}
