//! What the program doesn't do over sockets where nothing comes, or that never fail, proved from
//! its public contract alone.

ghost use Rattle.std.specs.Prelude.{◌≡◌, ◌<◌, ℕ, false, map, List};
ghost use Rattle.std.specs.Io.KnownBytes.{Keeps};
ghost use Rattle.std.specs.String.{string_bytes};
ghost use Rattle.bac_print.specs.Output.{AppendsPart};
ghost use Rattle.bac_query.specs.Ends.{end_line};
ghost use Rattle.bac_form.specs.declared.form.Form.TheVariants.{Lines};
ghost use Rattle.bac_tools.specs.Run.{AskFor};
ghost use Rattle.bac_ports.specs.Sockets.{socket_rules};
ghost use Rattle.bac_tools_tests.specs.Silence.{IsSilent, IsSilentWithin, LostWasAsked};
ghost use Rattle.bac_tools_tests.specs.Silence.{ServersStay};
ghost use Rattle.bac_walk.specs.declared.outcome.Why.{Why as AnyWhy};
ghost use Rattle.bac_command_line.specs.declared.job.Discovery.{Discovery as AnyDiscovery};
ghost use Rattle.bac_command_line.specs.declared.job.Job.TheVariants.{Log, Rp, Wi, Wp};
ghost use Rattle.bac_command_line.specs.declared.job.LogReading.{LogReading as AnyLogReading};
ghost use Rattle.bac_command_line.specs.declared.job.PropertyReading.{PropertyReading as AReading};
ghost use Rattle.bac_command_line.specs.declared.job.PropertyWriting.{PropertyWriting as AWriting};
ghost use Rattle.bac_command_line.specs.declared.job.Stations.TheVariants.{Listed};

use bac_tools::{Clock, Heeds, Sockets, run};
use std::alloc::Global;
use std::io::{Read, Write};

/// Over sockets where no datagram ever comes no tool that asks a device makes up an answer: `rp`
/// and `wp` print nothing and don't end with status 0, and `log` prints at most the line of its
/// end, with status 0 only if it is to take no step.
pub fn nothing_made_up<S: Heeds, I: Read, O: Write, E: Write, C: Clock>(
    sockets: &mut S,
    alloc: Global,
    words: &[String],
    input: &mut I,
    output: &mut O,
    errors: &mut E,
    clock: &mut C,
) -> u8
    ensures rp { (said : AReading) → AskFor (map string_bytes words.now) (Rp said)
        → IsSilent S.Socket.receives
        → (result ≡ 0 → ⊥) × Keeps (O.contents output.old) (O.contents output.new) }
    ensures wp { (said : AWriting) → AskFor (map string_bytes words.now) (Wp said)
        → IsSilent S.Socket.receives
        → (result ≡ 0 → ⊥) × Keeps (O.contents output.old) (O.contents output.new) }
    ensures log { (said : AnyLogReading) → said.form ≡ Lines
        → AskFor (map string_bytes words.now) (Log said)
        → IsSilent S.Socket.receives → (0 < said.steps → result ≡ 0 → ⊥)
        × ((why : AnyWhy) × (next : ℕ)
        × AppendsPart (O.contents output.old) (O.contents output.new) (end_line why next)) }
{
    run(sockets, alloc, words, input, output, errors, clock)
}

/// Over sockets where no datagram ever comes, however long a receive waits, `wi` prints nothing and
/// doesn't end with status 0.
pub fn no_device_made_up<S: Heeds, I: Read, O: Write, E: Write, C: Clock>(
    sockets: &mut S,
    alloc: Global,
    words: &[String],
    input: &mut I,
    output: &mut O,
    errors: &mut E,
    clock: &mut C,
) -> u8
    ensures { (said : AnyDiscovery) (addresses : List (List ℕ)) → said.stations ≡ Listed addresses
        → AskFor (map string_bytes words.now) (Wi said) → IsSilent S.Socket.receives
        → IsSilentWithin S.Socket.receives_within
        → (result ≡ 0 → ⊥) × Keeps (O.contents output.old) (O.contents output.new) }
{
    run(sockets, alloc, words, input, output, errors, clock)
}

/// `rp` tells that an answer is lost only if it asked for it as often as the words say.
pub fn lost_was_asked<S: Sockets, C: Clock>()
    ensures { LostWasAsked
        (socket_rules S.opens S.closes S.Socket.sends S.Socket.receives S.Socket.receives_within)
        C.tells }
{}

/// A server tells a socket fault only if a socket failed.
pub fn servers_stay<S: Sockets, C: Clock>()
    ensures { ServersStay
        (socket_rules S.opens S.closes S.Socket.sends S.Socket.receives S.Socket.receives_within)
        C.tells }
{}
