//! Why a replay ends early.

ghost use Rattle.std.specs.Prelude.{◌≡◌, None};
ghost use Rattle.bac_script.specs.Fault.{line_fault, replay_fault, told};
ghost use Rattle.bac_script.specs.Reason.{IsReason, IsReasonThere};

use crate::script::flaw::{Flaw, flaw_of, flaw_there, line_at};
use bac_device::{BuildFault, Misfit};
use thiserror::Error;

/// Why a line can't be played.
#[derive(Clone, Copy)]
pub(crate) enum LineFault {
    /// It is none of the lines of a script, or stands in the wrong place.
    Bad,
    /// It is the first event, and the device can't be built.
    Build(BuildFault),
    /// No memory for what it prints or says.
    Memory,
}

/// Why a replay ends early.
#[derive(Clone, Copy, Debug, PartialEq, Eq, Error)]
pub enum ReplayFault {
    /// This line, counted from 1, is none of a script, or stands in the wrong place.
    #[error("line {0}: bad line")]
    BadLine(usize),
    /// The device can't be built, for another reason than memory.
    #[error("cannot build: {0}")]
    Build(BuildFault),
    /// The reader refused.
    #[error("read fault")]
    Read,
    /// The script has more than 1,048,576 octets.
    #[error("script too long")]
    TooLong,
    /// The writer refused.
    #[error("write fault")]
    Write,
    /// No memory.
    #[error("out of memory")]
    Memory,
}

impl LineFault {
    /// The fault of a line whose event builds the device.
    pub(crate) fn of_build(fault: BuildFault) -> LineFault
        ensures { result ≡ line_fault fault }
    {
        match fault {
            BuildFault::Memory => LineFault::Memory,
            fault => LineFault::Build(fault),
        }
    }

    /// The fault of the replay if this is that of the line with this number.
    pub(crate) fn at_line(self, number: usize) -> ReplayFault
        ensures { result ≡ told number self }
    {
        match self {
            LineFault::Bad => ReplayFault::BadLine(number),
            LineFault::Build(fault) => ReplayFault::Build(fault),
            LineFault::Memory => ReplayFault::Memory,
        }
    }
}

impl ReplayFault {
    /// The fault of a replay whose device can't be built.
    pub(crate) fn of_build(fault: BuildFault) -> ReplayFault
        ensures { result ≡ replay_fault fault }
    {
        match fault {
            BuildFault::Memory => ReplayFault::Memory,
            fault => ReplayFault::Build(fault),
        }
    }
}

/// What is to mend in a text that is refused.
#[derive(Clone, Copy, Debug, PartialEq, Eq)]
pub enum Reason {
    /// What is wrong with the bad line.
    Line(Flaw),
    /// The line with which the device can't be built.
    Device(UnfitLine),
}

/// A line with which a device can't be built, and where it stands: lines by their numbers, counted
/// from 1.
#[derive(Clone, Copy, Debug, PartialEq, Eq)]
pub struct UnfitLine {
    pub misfit: Misfit,
    /// The line itself.
    pub number: Option<usize>,
    /// The line that has its type and instance, or its name, if that is the fault.
    pub rival: Option<usize>,
}

/// A script or a configuration that is refused: why, and what is to mend in it.
#[derive(Clone, Copy, Debug, PartialEq, Eq)]
pub struct Refused {
    pub fault: ReplayFault,
    /// Of a bad line it is always there; of a device that can't be built, if there is memory to
    /// look for the line; of another fault there is none.
    pub reason: Option<Reason>,
}

impl Refused {
    /// A fault of a script that was read, of which a bad line alone is explained.
    pub(crate) fn of(text: &[u8], fault: ReplayFault) -> Refused
        ensures fault { result.fault ≡ fault }
        ensures reason { IsReason text.now fault result.reason }
    {
        let reason = match fault {
            ReplayFault::BadLine(number) => Some(Reason::Line(flaw_of(line_at(text, number)))),
            _ => None,
        };
        Refused { fault, reason }
    }

    /// The same of a configuration.
    pub(crate) fn of_configuration(text: &[u8], fault: ReplayFault) -> Refused
        ensures fault { result.fault ≡ fault }
        ensures reason { IsReasonThere text.now fault result.reason }
    {
        let reason = match fault {
            ReplayFault::BadLine(number) => Some(Reason::Line(flaw_there(line_at(text, number)))),
            _ => None,
        };
        Refused { fault, reason }
    }
}

impl From<ReplayFault> for Refused {
    /// A fault that is of no line.
    fn from(fault: ReplayFault) -> Refused
        ensures { result ≡ record { fault = fault; reason = None } }
    {
        Refused {
            fault,
            reason: None,
        }
    }
}
