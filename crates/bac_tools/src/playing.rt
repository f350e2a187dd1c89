//! The tool that plays a script.

ghost use Rattle.bac_tools.specs.Playing.{Plays};

use crate::fault::Fault;
use bac_script::{Refused, ReplayFault, run_replay_explained};
use std::alloc::Global;
use std::io::{Read, Write};

/// Plays the script on the input, and flushes the output, also before a fault is told. After a
/// refused write nothing more is written.
pub(crate) fn replay<I: Read, O: Write>(
    alloc: Global,
    input: &mut I,
    output: &mut O,
) -> Result<u8, Fault>
    ensures { Plays (I.remaining input.old) (I.remaining input.new) (O.contents output.old)
        (O.contents output.new) result }
{
    let played = run_replay_explained(alloc, input, output);
    if let Err(
        Refused {
            fault: ReplayFault::Write,
            reason,
        },
    ) = played
    {
        let fault = ReplayFault::Write;
        return Err(Fault::Script(Refused { fault, reason }));
    }
    if output.flush().is_err() {
        return Err(Fault::Script(Refused::from(ReplayFault::Write)));
    }
    match played {
        Ok(()) => Ok(0),
        Err(refused) => Err(Fault::Script(refused)),
    }
}
