//! Laws of whatever is driven. What each function ensures is the law.

ghost use Rattle.bac_drive.specs.Happens.{acting};
ghost use Rattle.bac_drive.specs.Laws.{LosesNothing, RunsPut};

use crate::clock::Clock;
use crate::machine::Machine;
use bac_archive::puts_are_one;
use bac_ports::Port;

/// What a run leaves of an archive is what was there, with the rows of its batches put in turn; so
/// nothing of before is lost, whatever ends it.
pub fn runs_put<M: Machine, P: Port, C: Clock>()
    ensures put { RunsPut (acting M.gives M.hears M.reads P.sends P.receives_within C.reads) }
    ensures lose_nothing { LosesNothing
        (acting M.gives M.hears M.reads P.sends P.receives_within C.reads) }
{
    puts_are_one();
}
