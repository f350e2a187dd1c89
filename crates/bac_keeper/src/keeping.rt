//! `bac keep`.

ghost use Rattle.std.specs.Prelude.{◌≡◌, IfErr, IfOk, OnErr};
ghost use Rattle.sqlite_wal.specs.Files.{image_at};
ghost use Rattle.bac_historian.specs.Files.{KeepsPart};
ghost use Rattle.bac_ports.specs.Sockets.{socket_rules};
ghost use Rattle.bac_site_poller.specs.SiteLaws.{site_acts};
ghost use Rattle.bac_keeper.specs.Machine.{IsSameMachine, hands, in_machine};
ghost use Rattle.bac_keeper.specs.Runs.{OpensNone, RunsOpened, RunsOrder, RunsPlaced, RunsTool};

use crate::ends::{end_halted, end_run};
use crate::fault::Fault;
use crate::halts::Halt;
use crate::machine::Machine;
use crate::places::place_of;
use bac_command_line::Keep;
use bac_device_poller::Status;
use bac_drive::Clock;
use bac_files::{DiskFiles, FileOf, Place};
use bac_historian::{Fault as RunFault, Room, keep_file};
use bac_keep_command_line::{Order, read_keep};
use bac_ports::{OpenFault, Sockets};
use bac_wire::Stamp;
use sqlite::Start;
use sqlite_disk::Disk;
use std::alloc::Global;
use std::io::Write;

/// How many octets a MiB has.
const MIB: u64 = 1_048_576;

/// A port is opened, a run goes over it and the file at a place, and it is closed.
fn keep_opened<F: Start, G: Start, S: Sockets, C: Clock, W: Write, V: Write>(
    alloc: Global,
    order: &Order,
    files: &mut DiskFiles<'_, F>,
    parts: &mut DiskFiles<'_, G>,
    place: &mut Place,
    machine: &mut Machine<'_, '_, '_, '_, S, C, W, V>,
) -> Result<Result<Status, RunFault>, OpenFault>
    ensures runs { IfOk result (RunsOpened (socket_rules S.opens S.closes S.Socket.sends
        S.Socket.receives S.Socket.receives_within)
        (site_acts S.Socket.sends S.Socket.receives_within C.reads) ⟦<FileOf<F> as Disk>⟧
        (image_at F.Start) ⟦<FileOf<G> as Disk>⟧ (image_at G.Start) order.now place.old
        place.new.blames_before
        (hands (in_machine W.contents V.contents machine.old) files.old parts.old)
        (hands (in_machine W.contents V.contents machine.new) files.new parts.new)) }
    ensures none { IfErr result (OpensNone (socket_rules S.opens S.closes S.Socket.sends
        S.Socket.receives S.Socket.receives_within) order.now
        (hands (in_machine W.contents V.contents machine.old) files.old parts.old)
        (hands (in_machine W.contents V.contents machine.new) files.new parts.new)) }
    ensures part { KeepsPart ⟦<FileOf<G> as Disk>⟧ (image_at G.Start) parts.old parts.new }
    ensures place { (place.new.path ≡ place.old.path) × (place.new.before ≡ place.old.before) }
    ensures machine { IsSameMachine machine.old machine.new }
{
    let wait_ms = order.run.options.limits.wait_ms;
    match machine.sockets.open(order.local, wait_ms) {
        Ok(port) => {
            parts.wait_for(order.wait);
            let mut port = port;
            let mut room = Room {
                port: &mut port,
                clock: &mut *machine.clock,
                output: &mut *machine.output,
                errors: &mut *machine.errors,
            };
            let came = keep_file(alloc, &order.run, files, parts, place, &mut room);
            machine.sockets.close(port);
            Ok(came)
        }
        Err(why) => Err(why),
    }
}

/// What words ask for, at a place.
fn keep_placed<F: Start, G: Start, S: Sockets, C: Clock, W: Write, V: Write>(
    alloc: Global,
    order: &Order,
    files: &mut DiskFiles<'_, F>,
    parts: &mut DiskFiles<'_, G>,
    place: Place,
    machine: &mut Machine<'_, '_, '_, '_, S, C, W, V>,
) -> Result<u8, Fault>
    ensures runs { RunsPlaced (socket_rules S.opens S.closes S.Socket.sends S.Socket.receives
        S.Socket.receives_within) (site_acts S.Socket.sends S.Socket.receives_within C.reads)
        ⟦<FileOf<F> as Disk>⟧ (image_at F.Start) ⟦<FileOf<G> as Disk>⟧ (image_at G.Start)
        order.now place
        (hands (in_machine W.contents V.contents machine.old) files.old parts.old)
        (hands (in_machine W.contents V.contents machine.new) files.new parts.new) result }
    ensures part { KeepsPart ⟦<FileOf<G> as Disk>⟧ (image_at G.Start) parts.old parts.new }
    ensures machine { IsSameMachine machine.old machine.new }
{
    let mut place = place;
    match keep_opened(alloc, order, files, parts, &mut place, machine) {
        Ok(came) => end_run(alloc, came, place.blamed(), &mut *machine.errors),
        Err(why) => Err(Fault::Unopened(why)),
    }
}

/// What words ask for, at the place of their archive.
fn keep_ordered<F: Start, G: Start, S: Sockets, C: Clock, W: Write, V: Write>(
    alloc: Global,
    keep: &Keep,
    order: &Order,
    files: &mut DiskFiles<'_, F>,
    parts: &mut DiskFiles<'_, G>,
    machine: &mut Machine<'_, '_, '_, '_, S, C, W, V>,
) -> Result<u8, Fault>
    ensures runs { RunsOrder (socket_rules S.opens S.closes S.Socket.sends S.Socket.receives
        S.Socket.receives_within) (site_acts S.Socket.sends S.Socket.receives_within C.reads)
        ⟦<FileOf<F> as Disk>⟧ (image_at F.Start) ⟦<FileOf<G> as Disk>⟧ (image_at G.Start)
        keep.now order.now
        (hands (in_machine W.contents V.contents machine.old) files.old parts.old)
        (hands (in_machine W.contents V.contents machine.new) files.new parts.new) result }
    ensures part { KeepsPart ⟦<FileOf<G> as Disk>⟧ (image_at G.Start) parts.old parts.new }
    ensures machine { IsSameMachine machine.old machine.new }
{
    let name = keep.file.as_str();
    match place_of(
        files,
        name,
        keep.groups.are_any(),
        u64::from(keep.part) * MIB,
        order.wait,
    ) {
        Ok(place) => keep_placed(alloc, order, files, parts, place, machine),
        Err(why) => end_halted(alloc, Halt::File(why), name, &mut *machine.errors),
    }
}

/// Does what the words of `bac keep` ask for, from this moment on, and answers the exit status.
/// The lines of trend logs go to the output; that the archive is no use is told on the errors. Any
/// other fault is the caller's to tell.
pub fn run_keep<F: Start, G: Start, S: Sockets, C: Clock, W: Write, V: Write>(
    alloc: Global,
    keep: &Keep,
    begun: Stamp,
    files: &mut DiskFiles<'_, F>,
    parts: &mut DiskFiles<'_, G>,
    machine: &mut Machine<'_, '_, '_, '_, S, C, W, V>,
) -> Result<u8, Fault>
    ensures runs { RunsTool (socket_rules S.opens S.closes S.Socket.sends S.Socket.receives
        S.Socket.receives_within) (site_acts S.Socket.sends S.Socket.receives_within C.reads)
        ⟦<FileOf<F> as Disk>⟧ (image_at F.Start) ⟦<FileOf<G> as Disk>⟧ (image_at G.Start)
        keep.now begun
        (hands (in_machine W.contents V.contents machine.old) files.old parts.old)
        (hands (in_machine W.contents V.contents machine.new) files.new parts.new) result }
    // The part before is only read.
    ensures part { KeepsPart ⟦<FileOf<G> as Disk>⟧ (image_at G.Start) parts.old parts.new }
    ensures machine { IsSameMachine machine.old machine.new }
{
    match read_keep(alloc, keep, begun) {
        Ok(order) => keep_ordered(alloc, keep, &order, files, parts, machine),
        Err(fault) => Err(Fault::of_words(fault)),
    }
}
