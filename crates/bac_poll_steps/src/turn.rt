//! What an answer brings to a poll.

ghost use Rattle.std.specs.Prelude.{◌≡◌, true, false, [], Some, None};
ghost use Rattle.bac_walk.specs.Walks.{gap_items};
ghost use Rattle.bac_poll_steps.specs.State.{PollState};
ghost use Rattle.bac_poll_steps.specs.Turns.{asks, ends, gap_up_to, turned};

use bac_walk::{Gap, Numbered, WalkFault};
use std::alloc::Global;

/// Why nothing more is asked.
#[derive(Clone, Copy, Debug, PartialEq, Eq)]
pub enum PollEnd {
    /// The device said that it holds nothing newer.
    CaughtUp,
    /// It holds nothing newer, though the last reply with records said that more is there.
    SaysMore,
    /// It shows no record, and refuses its count.
    ShowsNone,
    /// It shows its oldest records, which need not be all that it holds, and none by number.
    NoneByNumber,
    /// It contradicts itself: it would begin a third life in one poll, or holds more records before
    /// one than there are numbers before it.
    Contradicts,
    Fault(WalkFault),
}

/// What is told of a log.
#[derive(Clone, Copy, Debug, PartialEq, Eq)]
pub enum Line {
    /// It shows its records so many quarter hours later, and a hundred.
    AtHour(u32),
    /// The same, or it began anew: their value never changes, and it doesn't tell its restart
    /// again.
    AtHourOrBegan(u32),
    /// It began anew.
    BeganAnew,
    /// It began anew, or dropped records.
    BeganOrDropped,
    /// It dropped the records from the first of these numbers up to the other, or began anew; where
    /// both are the same it goes on there, or began anew.
    DroppedOrBegan(u32, u32),
}

/// Where the first epoch of a log begins, which is put on record.
#[derive(Clone, Copy, Debug, PartialEq, Eq)]
pub struct Beginning {
    pub number: u32,
    /// By the count alone: what the log holds isn't known yet.
    pub counted: bool,
}

/// What an answer brings, to be committed in one transaction, in this order.
#[derive(Drop)]
pub struct Turn {
    pub begins: Option<Beginning>,
    /// A gap where the log stands.
    pub missing: Option<Gap>,
    /// That gap may be none: the log may have begun anew.
    pub doubtful: bool,
    /// An epoch begins, from 1 on.
    pub anew: bool,
    /// A gap at its beginning.
    pub gap: Option<Gap>,
    /// The records.
    pub entries: Vec<Numbered>,
    pub line: Option<Line>,
    /// Why nothing more is asked, if nothing is.
    pub end: Option<PollEnd>,
}

impl Turn {
    /// The next question is asked.
    pub fn asks(alloc: Global) -> Turn
        ensures { (p : PollState) → turned p result ≡ asks p }
    {
        Turn {
            begins: None,
            missing: None,
            doubtful: false,
            anew: false,
            gap: None,
            entries: Vec::new(alloc),
            line: None,
            end: None,
        }
    }

    /// Nothing more is asked.
    pub fn ends(alloc: Global, why: PollEnd) -> Turn
        ensures { (p : PollState) → turned p result ≡ ends p why }
    {
        Turn {
            begins: None,
            missing: None,
            doubtful: false,
            anew: false,
            gap: None,
            entries: Vec::new(alloc),
            line: None,
            end: Some(why),
        }
    }
}

/// The numbers from one up to another, if there are any.
pub fn gap_up_to(first: u32, before: u32) -> Option<Gap>
    ensures { gap_items result ≡ gap_up_to first before }
{
    if first == before {
        None
    } else {
        Some(Gap { first, before })
    }
}
