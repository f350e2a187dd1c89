//! What the calls of a walk answer.

ghost use Rattle.std.specs.Prelude.{◌≡◌};
ghost use Rattle.bac_walk.specs.Outcomes.{why_of};

use crate::batch::Batch;
use bac_link::{Item, Refusal};

/// What an answer means to a walk.
#[derive(Drop)]
pub enum Progress {
    Batch(Batch),
    /// None came: the oldest records are asked for next.
    AskOldest,
    CaughtUp,
}

/// An answer that belongs to no question of the walk.
#[derive(Clone, Copy, Debug, PartialEq, Eq)]
pub struct BadReply;

/// What a step brings.
#[derive(Drop)]
pub enum Step {
    Batch(Batch),
    CaughtUp,
}

/// Why a step failed.
#[derive(Clone, Copy, Debug, PartialEq, Eq)]
pub enum WalkFault {
    /// No answer came.
    Lost,
    /// The device refused.
    Refused(Refusal),
    /// An answer belonged to no question of the walk.
    BadReply,
}

/// Why a delivery ended.
#[derive(Clone, Copy, Debug, PartialEq, Eq)]
pub enum Ended {
    CaughtUp,
    /// So many batches came.
    StepLimit,
    /// A record was put and answered with false.
    Stopped,
    Fault(WalkFault),
}

/// What a run of steps delivers, the number that comes next, and why it ended.
#[derive(Drop)]
pub struct Outcome {
    pub items: Vec<Item>,
    pub next: u32,
    pub why: Why,
}

/// Why a run of steps ended.
#[derive(Clone, Copy, Debug, PartialEq, Eq)]
pub enum Why {
    CaughtUp,
    /// So many batches came.
    StepLimit,
    Fault(WalkFault),
    /// There was no room for the items of another step.
    Memory,
}

impl Ended {
    /// Why a run ends with a step that ended so; a whole reply doesn't end it. A step that was
    /// stopped found no room for its items.
    pub fn why(self) -> Option<Why>
        ensures { result ≡ why_of self }
    {
        match self {
            Ended::StepLimit => None,
            Ended::CaughtUp => Some(Why::CaughtUp),
            Ended::Fault(fault) => Some(Why::Fault(fault)),
            Ended::Stopped => Some(Why::Memory),
        }
    }
}
