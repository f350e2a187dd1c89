//! `keep`.

ghost use Rattle.std.specs.Prelude.{◌≡◌, None, Some};
ghost use Rattle.sqlite_wal.specs.Files.{image_at};
ghost use Rattle.bac_socket_notes.specs.Notes.{nothing};
ghost use Rattle.bac_historian.specs.Files.{KeepsPart};
ghost use Rattle.bac_keeper.specs.Stops.{texts};
ghost use Rattle.bac_ports.specs.Sockets.{socket_rules};
ghost use Rattle.bac_site_poller.specs.SiteLaws.{site_acts};
ghost use Rattle.bac_tools.specs.Run.{Ends};
ghost use Rattle.bac_run.specs.Faults.{keep_ending, of_keep};
ghost use Rattle.bac_run.specs.Keeping.{Keeps, KeepsOf, RunsFrom, StopsTold};
ghost use Rattle.bac_run.specs.Setup.{DoesQuietly, setup, setup_over};
ghost use Rattle.bac_command_line.specs.Jobs.{reads_input};

use crate::machine::{Console, Machine};
use bac_command_line::Keep;
use bac_drive::Clock as WaitClock;
use bac_files::{DiskFiles, FileOf};
use bac_keeper::{Fault as KeepFault, Machine as Hands, run_keep, run_stop};
use bac_ports::Sockets;
use bac_tools::{Clock, Fault, listed_devices, tell};
use bac_wire::Stamp;
use sqlite::Start;
use sqlite_disk::Disk;
use std::alloc::Global;
use std::io::{self, Read, Write};

/// A fault of `keep`, as one of the program.
fn of_keep(fault: KeepFault) -> Fault
    ensures { result ≡ of_keep fault }
{
    match fault {
        KeepFault::BadValue(word) => Fault::BadValue(word),
        KeepFault::LongNumber(word) => Fault::LongNumber(word),
        KeepFault::Unopened(why) => Fault::Unopened(why),
        KeepFault::Write => Fault::Write,
        KeepFault::Memory => Fault::Memory,
    }
}

/// The status of `keep`, whose fault is told.
fn ended<E: Write>(alloc: Global, done: Result<u8, KeepFault>, errors: &mut E) -> u8
    ensures { Ends nothing (keep_ending done) (E.contents errors.old) (E.contents errors.new)
        result }
{
    match done {
        Ok(status) => status,
        Err(fault) => tell(alloc, of_keep(fault), errors),
    }
}

/// What the words name is stopped, and a fault is told.
fn stop_and_tell<F: Start, O: Write, E: Write>(
    files: &mut DiskFiles<'_, F>,
    alloc: Global,
    asked: &Keep,
    output: &mut O,
    errors: &mut E,
) -> u8
    ensures { StopsTold ⟦<FileOf<F> as Disk>⟧ (image_at F.Start) asked.now files.old files.new
        (texts (O.contents output.old) (E.contents errors.old)) result
        (texts (O.contents output.new) (E.contents errors.new)) }
{
    let done = run_stop(alloc, asked, files, output, errors);
    ended(alloc, done, errors)
}

/// A run that begins at this moment, and its fault is told.
fn run_and_tell<S: Sockets, F: Start, G: Start, Q, O: Write, E: Write, C, W: WaitClock + Copy>(
    machine: &mut Machine<'_, S, F, G, Q, C>,
    output: &mut O,
    errors: &mut E,
    alloc: Global,
    waits: W,
    asked: &Keep,
    begun: Stamp,
) -> u8
    ensures ran { RunsFrom (socket_rules S.opens S.closes S.Socket.sends S.Socket.receives
        S.Socket.receives_within) (site_acts S.Socket.sends S.Socket.receives_within W.reads)
        ⟦<FileOf<F> as Disk>⟧ (image_at F.Start) ⟦<FileOf<G> as Disk>⟧ (image_at G.Start) waits
        (Some begun) asked.now
        (setup_over None (O.contents output.old) (E.contents errors.old) machine.old) result
        (setup_over None (O.contents output.new) (E.contents errors.new) machine.new) }
    ensures clock { machine.new.clock ≡ machine.old.clock }
    ensures beside { machine.new.folders ≡ machine.old.folders }
    ensures part { KeepsPart ⟦<FileOf<G> as Disk>⟧ (image_at G.Start) machine.old.parts
        machine.new.parts }
{
    let mut clock = waits;
    let mut hands = Hands {
        sockets: &mut machine.sockets,
        clock: &mut clock,
        output: &mut *output,
        errors: &mut *errors,
    };
    let done = run_keep(
        alloc,
        asked,
        begun,
        &mut machine.files,
        &mut machine.parts,
        &mut hands,
    );
    ended(alloc, done, errors)
}

/// `keep` of the devices of the words: what they name is stopped, or a run begins now.
fn keep_and_tell<
    S: Sockets,
    F: Start,
    G: Start,
    Q,
    O: Write,
    E: Write,
    C: Clock,
    W: WaitClock + Copy,
>(
    machine: &mut Machine<'_, S, F, G, Q, C>,
    output: &mut O,
    errors: &mut E,
    alloc: Global,
    waits: W,
    asked: &Keep,
) -> u8
    ensures ran { Keeps (socket_rules S.opens S.closes S.Socket.sends S.Socket.receives
        S.Socket.receives_within) (site_acts S.Socket.sends S.Socket.receives_within W.reads)
        ⟦<FileOf<F> as Disk>⟧ (image_at F.Start) ⟦<FileOf<G> as Disk>⟧ (image_at G.Start) waits
        C.tells asked.now
        (setup_over None (O.contents output.old) (E.contents errors.old) machine.old) result
        (setup_over None (O.contents output.new) (E.contents errors.new) machine.new) }
    ensures beside { machine.new.folders ≡ machine.old.folders }
    ensures part { KeepsPart ⟦<FileOf<G> as Disk>⟧ (image_at G.Start) machine.old.parts
        machine.new.parts }
{
    if asked.stop {
        return stop_and_tell(&mut machine.files, alloc, asked, output, errors);
    }
    match machine.clock.now() {
        Some(begun) => run_and_tell(machine, output, errors, alloc, waits, asked, begun),
        None => tell(alloc, Fault::Clock, errors),
    }
}

/// `keep` of the devices of its words, or of those that the input lists; without a list it is told
/// why, and nothing else is done.
fn keep_devices<
    S: Sockets,
    F: Start,
    G: Start,
    Q,
    I: Read,
    O: Write,
    E: Write,
    C: Clock,
    W: WaitClock + Copy,
>(
    machine: &mut Machine<'_, S, F, G, Q, C>,
    input: &mut I,
    output: &mut O,
    errors: &mut E,
    alloc: Global,
    waits: W,
    asked: Keep,
) -> u8
    ensures ran { KeepsOf (socket_rules S.opens S.closes S.Socket.sends S.Socket.receives
        S.Socket.receives_within) (site_acts S.Socket.sends S.Socket.receives_within W.reads)
        ⟦<FileOf<F> as Disk>⟧ (image_at F.Start) ⟦<FileOf<G> as Disk>⟧ (image_at G.Start) waits
        C.tells (reads_input asked) asked
        (setup_over (I.remaining input.old) (O.contents output.old) (E.contents errors.old)
        machine.old) result
        (setup_over (I.remaining input.new) (O.contents output.new) (E.contents errors.new)
        machine.new) }
    ensures folders { machine.new.folders ≡ machine.old.folders }
    ensures part { KeepsPart ⟦<FileOf<G> as Disk>⟧ (image_at G.Start) machine.old.parts
        machine.new.parts }
{
    if !asked.reads_input() {
        return keep_and_tell(machine, output, errors, alloc, waits, &asked);
    }
    match listed_devices(alloc, input) {
        Ok(groups) => {
            let asked = asked.with_groups(groups);
            keep_and_tell(machine, output, errors, alloc, waits, &asked)
        }
        Err(fault) => tell(alloc, Fault::List(fault), errors),
    }
}

/// The same; with `--quiet` what it prints goes nowhere.
pub(crate) fn keep_job<
    S: Sockets,
    F: Start,
    G: Start,
    Q,
    I: Read,
    O: Write,
    E: Write,
    C: Clock,
    W: WaitClock + Copy,
>(
    machine: &mut Machine<'_, S, F, G, Q, C>,
    console: &mut Console<I, O, E>,
    alloc: Global,
    waits: W,
    asked: Keep,
) -> u8
    ensures ran { DoesQuietly asked.quiet (KeepsOf (socket_rules S.opens S.closes S.Socket.sends
        S.Socket.receives S.Socket.receives_within)
        (site_acts S.Socket.sends S.Socket.receives_within W.reads)
        ⟦<FileOf<F> as Disk>⟧ (image_at F.Start) ⟦<FileOf<G> as Disk>⟧ (image_at G.Start) waits
        C.tells (reads_input asked) asked)
        (setup I.remaining O.contents E.contents machine.old console.old) result
        (setup I.remaining O.contents E.contents machine.new console.new) }
    ensures folders { machine.new.folders ≡ machine.old.folders }
    ensures part { KeepsPart ⟦<FileOf<G> as Disk>⟧ (image_at G.Start) machine.old.parts
        machine.new.parts }
{
    let Console {
        input,
        output,
        errors,
    } = console;
    if asked.quiet {
        return keep_devices(machine, input, &mut io::sink(), errors, alloc, waits, asked);
    }
    keep_devices(machine, input, output, errors, alloc, waits, asked)
}
