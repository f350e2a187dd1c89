//! What whatever words never do.

ghost use Rattle.std.specs.Prelude.{◌≡◌, ◌⊎◌, false, List, [], map};
ghost use Rattle.std.specs.String.{string_bytes};
ghost use Rattle.bac_socket_notes.specs.Ports.{Event};
ghost use Rattle.bac_ports.specs.Sockets.{socket_rules};
ghost use Rattle.bac_form.specs.declared.form.Form.TheVariants.{Lines};
ghost use Rattle.bac_tools.specs.Run.{AskFor};
ghost use Rattle.bac_command_line.specs.declared.job.Job.{Job as AnyJob};
ghost use Rattle.bac_command_line.specs.declared.job.Job.TheVariants as job;
ghost use Rattle.bac_command_line.specs.declared.job.Keep.{Keep as KeepWords};
ghost use Rattle.bac_command_line.specs.declared.job.LogReading.{LogReading as LogWords};
ghost use Rattle.bac_laws.specs.Added.{AddsWhatCame, IsUseless};
ghost use Rattle.bac_laws.specs.Lost.{LosesNoneIn};
ghost use Rattle.bac_laws.specs.Events.{IsCaptured};
ghost use Rattle.bac_laws.specs.Printed.{CameFrom, PrintsLog};
ghost use Rattle.bac_laws.specs.Sends.{AreSwitched, GaveBack, IsBound, MaySend, SendsOnly};

use bac_archive::puts_are_one;
use bac_drive::Clock as WaitClock;
use bac_files::FileOf;
use bac_run::{Console, Machine, Parts, run};
use bac_tools::Clock;
use bac_trace::Tracing;
use sqlite::Start;
use sqlite_disk::Disk;
use std::alloc::Global;
use std::io::{Read, Write};

/// Whatever the words, and whatever comes of it: of an archive that the files held nothing is lost.
pub fn loses_none<
    S: Tracing,
    F: Start,
    G: Start,
    Q: Parts,
    I: Read,
    O: Write,
    E: Write,
    C: Clock,
    W: WaitClock + Copy,
>(
    machine: &mut Machine<'_, S, F, G, Q, C>,
    console: &mut Console<I, O, E>,
    alloc: Global,
    waits: W,
    words: &[String],
) -> u8
where
    W: Drop,
    ensures { LosesNoneIn ⟦<FileOf<F> as Disk>⟧ machine.old.files machine.new.files }
{
    run(machine, console, alloc, waits, words)
}

/// Each tool sends only what it may, and only to whom it may. Words that ask for no tool send
/// nothing.
pub fn sends_only<
    S: Tracing,
    F: Start,
    G: Start,
    Q: Parts,
    I: Read,
    O: Write,
    E: Write,
    C: Clock,
    W: WaitClock + Copy,
>(
    machine: &mut Machine<'_, S, F, G, Q, C>,
    console: &mut Console<I, O, E>,
    alloc: Global,
    waits: W,
    words: &[String],
) -> u8
where
    W: Drop,
    ensures sends { (asked : AnyJob) → AskFor (map string_bytes words.now) asked → IsBound asked
        → SendsOnly (socket_rules S.opens S.closes S.Socket.sends S.Socket.receives
        S.Socket.receives_within) (AreSwitched S.traces) (MaySend asked) machine.old.sockets
        machine.new.sockets }
    ensures silent { ((asked : AnyJob) → AskFor (map string_bytes words.now) asked → ⊥)
        → machine.new.sockets ≡ machine.old.sockets }
{
    run(machine, console, alloc, waits, words)
}

/// `keep` only reads: it sends ReadProperty, ReadRange and Who-Is, whatever comes, if its file
/// could be closed and the disk gave back what was written.
pub fn keep_only_reads<
    S: Tracing,
    F: Start,
    G: Start,
    Q: Parts,
    I: Read,
    O: Write,
    E: Write,
    C: Clock,
    W: WaitClock + Copy,
>(
    machine: &mut Machine<'_, S, F, G, Q, C>,
    console: &mut Console<I, O, E>,
    alloc: Global,
    waits: W,
    words: &[String],
) -> u8
where
    W: Drop,
    ensures { (said : KeepWords) → AskFor (map string_bytes words.now) (job.Keep said)
        → GaveBack ⟦<FileOf<F> as Disk>⟧ machine.new.files
        → SendsOnly (socket_rules S.opens S.closes S.Socket.sends S.Socket.receives
        S.Socket.receives_within) (AreSwitched S.traces) (MaySend (job.Keep said))
        machine.old.sockets machine.new.sockets }
{
    run(machine, console, alloc, waits, words)
}

/// `log` prints in lines what came in this run from the device of its words, each number once, and
/// how it ended, which is right: where the device said that it has no more, at the limit of its
/// steps, or at a fault of the request that was made last, as that no answer came.
pub fn log_prints_what_came<
    S: Tracing,
    F: Start,
    G: Start,
    Q: Parts,
    I: Read,
    O: Write,
    E: Write,
    C: Clock,
    W: WaitClock + Copy,
>(
    machine: &mut Machine<'_, S, F, G, Q, C>,
    console: &mut Console<I, O, E>,
    alloc: Global,
    waits: W,
    words: &[String],
) -> u8
where
    W: Drop,
    ensures { (said : LogWords) → AskFor (map string_bytes words.now) (job.Log said)
        → said.form ≡ Lines
        → (es : List Event) × IsCaptured (socket_rules S.opens S.closes S.Socket.sends
        S.Socket.receives S.Socket.receives_within) S.traces machine.old.sockets
        machine.new.sockets es
        × PrintsLog (CameFrom (socket_rules S.opens S.closes S.Socket.sends S.Socket.receives
        S.Socket.receives_within) (AreSwitched S.traces) machine.new.sockets
        said.asked.address) said es (O.contents console.old.output)
        (O.contents console.new.output) result }
{
    run(machine, console, alloc, waits, words)
}

/// `keep` makes nothing up: each row of the table `items` that the closed file has was there
/// before, or is that of a gap, or that of a record that came in this run from the device of its
/// log, in the ACK of a ReadRange for that log; if the file could be closed and the disk gave back
/// what was written. Where nothing was sent and nothing came, and the status is that of an archive
/// of no use, or of no memory, nothing is said.
pub fn keep_adds_what_came<
    S: Tracing,
    F: Start,
    G: Start,
    Q: Parts,
    I: Read,
    O: Write,
    E: Write,
    C: Clock,
    W: WaitClock + Copy,
>(
    machine: &mut Machine<'_, S, F, G, Q, C>,
    console: &mut Console<I, O, E>,
    alloc: Global,
    waits: W,
    words: &[String],
) -> u8
where
    W: Drop,
    ensures { (said : KeepWords) → AskFor (map string_bytes words.now) (job.Keep said)
        → said.stop ≡ false → GaveBack ⟦<FileOf<F> as Disk>⟧ machine.new.files
        → (es : List Event) × IsCaptured (socket_rules S.opens S.closes S.Socket.sends
        S.Socket.receives S.Socket.receives_within) S.traces machine.old.sockets
        machine.new.sockets es
        × (((es ≡ []) × IsUseless result) ⊎ AddsWhatCame ⟦<FileOf<F> as Disk>⟧
        machine.old.files machine.new.files machine.new.parts es) }
{
    puts_are_one();
    run(machine, console, alloc, waits, words)
}
