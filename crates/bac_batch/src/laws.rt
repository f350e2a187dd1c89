//! Laws of batches, whatever machine is inside. Each function does nothing: what it ensures is the
//! law.

ghost use Rattle.bac_drive.specs.Happens.{acting};
ghost use Rattle.bac_batch.specs.Laws.{BatchesAreReplies, EndsWhole, LinesStandBehind};
ghost use Rattle.bac_batch.specs.Laws.{LosesNothing, StepsHappen, WaitsWithYoungRows};

use bac_drive::{Clock, Machine};
use bac_ports::Port;

/// What happens while a machine is driven is steps of the machine, of which the other laws speak.
pub fn steps_happen<M: Machine, P: Port, C: Clock>()
    ensures { StepsHappen
        (acting M.gives M.hears M.reads P.sends P.receives_within C.reads) }
{}

/// Nothing is lost or made up: of the machine inside there is a run with the same sends, datagrams
/// and readings of the clock, whose rows and lines are those that were put and told, and those that
/// are held. A batch is the rows of at most 64 replies in a row.
pub fn loses_nothing<M: Machine>()
    ensures { LosesNothing M.gives M.hears M.reads }
{}

/// At the end nothing is held.
pub fn ends_whole<M: Machine>()
    ensures { EndsWhole M.gives M.hears M.reads }
{}

/// A batch is the rows of at most 64 replies, in order, each of which the machine inside wanted to
/// be put before.
pub fn batches_are_replies<M: Machine>()
    ensures { BatchesAreReplies M.gives M.hears M.reads }
{}

/// When a line is told, all that the machine inside wanted to be put has been put before.
pub fn lines_stand_behind<M: Machine>()
    ensures { LinesStandBehind M.gives M.hears M.reads }
{}

/// Where it waits, rows that are held came less than 100 milliseconds before, by the clock as it
/// was read last.
pub fn waits_with_young_rows<M: Machine>()
    ensures { WaitsWithYoungRows M.gives }
{}
