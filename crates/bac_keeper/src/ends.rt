//! How the tool ends, and what it tells then.

ghost use Rattle.bac_keeper.specs.Ends.{EndsHalted, EndsRun};
ghost use Rattle.bac_print.specs.Output.{AppendsPart};

use crate::fault::Fault;
use crate::halts::{Halt, run_halt};
use bac_device_poller::Status;
use bac_historian::Fault as RunFault;
use bac_print::write_text;
use std::alloc::Global;
use std::io::Write;

/// Writes a text; if that is refused there is nowhere to tell it.
fn say<E: Write>(text: &[u8], errors: &mut E)
    ensures { AppendsPart (E.contents errors.old) (E.contents errors.new) text.now }
{
    let _ = write_text(errors, text);
}

/// The tool halts. That the archive with this name is no use is told on the errors.
pub(crate) fn end_halted<E: Write>(
    alloc: Global,
    halt: Halt,
    path: &str,
    errors: &mut E,
) -> Result<u8, Fault>
    ensures { EndsHalted halt path.now (E.contents errors.old) (E.contents errors.new) result }
{
    match halt {
        Halt::Own(fault) => Err(fault),
        Halt::File(why) => match why.lines(alloc, path) {
            Ok(text) => {
                say(text.as_bytes(), errors);
                Ok(why.status())
            }
            Err(_) => Err(Fault::Memory),
        },
        Halt::Archive(why) => match why.lines(alloc, path) {
            Ok(text) => {
                say(text.as_slice(), errors);
                Ok(6)
            }
            Err(_) => Err(Fault::Memory),
        },
    }
}

/// A run ends by its status, or halts.
pub(crate) fn end_run<E: Write>(
    alloc: Global,
    came: Result<Status, RunFault>,
    path: &str,
    errors: &mut E,
) -> Result<u8, Fault>
    ensures { EndsRun came path.now (E.contents errors.old) (E.contents errors.new) result }
{
    match came {
        Ok(status) => Ok(status.code()),
        Err(why) => end_halted(alloc, run_halt(why), path, errors),
    }
}
