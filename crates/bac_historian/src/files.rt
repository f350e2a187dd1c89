//! A run over the file at a place.

ghost use Rattle.std.specs.Prelude.{◌≡◌, IfErr, IfOk, IsTrue, OnOk, false};
ghost use Rattle.sqlite.specs.Files.{over_files};
ghost use Rattle.sqlite.specs.Held.{state};
ghost use Rattle.sqlite.specs.State.{HasCleanDisk, Survives};
ghost use Rattle.sqlite_wal.specs.Files.{image_at};
ghost use Rattle.bac_site_poller.specs.SiteLaws.{site_acts};
ghost use Rattle.bac_historian.specs.Files.{IsLeftAt, KeepsAt, KeepsPart};
ghost use Rattle.bac_historian.specs.Files.{RunsAt, ended, may_make};
ghost use Rattle.bac_historian.specs.Kept.{HaltsFrom, IsCommitted, IsLeftFrom, KeepsFrom};
ghost use Rattle.bac_historian.specs.Kept.{RemainsFrom};
ghost use Rattle.bac_historian.specs.Room.{IsSameRoom, in_room};

use crate::fault::Fault;
use crate::keeping::keep_in;
use crate::room::Room;
use bac_device_poller::Status;
use bac_drive::Clock;
use bac_files::{DiskFiles, FileOf, Place};
use bac_keeping::Run;
use bac_parts::{FileFault, open_file};
use bac_ports::Port;
use sqlite::{Connection, Error, FileStore, Start};
use sqlite_disk::Disk;
use std::alloc::Global;
use std::io::Write;

// A run over the database of open files. The disk is any: of a known one the prover would show all
// that makes it a store anew.
fn keep_over<D: Disk, G: Start, P: Port, C: Clock, W: Write, V: Write>(
    alloc: Global,
    run: &Run,
    conn: &mut Connection<FileStore<D>>,
    parts: &mut DiskFiles<'_, G>,
    place: &mut Place,
    room: &mut Room<'_, '_, '_, '_, P, C, W, V>,
) -> Result<Status, Fault>
    ensures keeps { HasCleanDisk (state over_files conn.new)
        → IfOk result (KeepsFrom ⟦<FileOf<G> as Disk>⟧ (image_at G.Start)
        (site_acts P.sends P.receives_within C.reads) run.now place.old.before parts.new
        (in_room W.contents V.contents room.old) (in_room W.contents V.contents room.new)
        (state over_files conn.old).now (state over_files conn.new).now) }
    ensures halts { IfErr result (HaltsFrom ⟦<FileOf<G> as Disk>⟧ (image_at G.Start) over_files
        (site_acts P.sends P.receives_within C.reads) run.now place.old.before
        place.new.blames_before parts.new (in_room W.contents V.contents room.old)
        (in_room W.contents V.contents room.new) conn.old conn.new) }
    ensures blamed { OnOk result (place.new.blames_before ≡ false) }
    ensures committed { HasCleanDisk (state over_files conn.new)
        → IsCommitted (state over_files conn.old) (state over_files conn.new) result }
    ensures crash { Survives (state over_files conn.old) (state over_files conn.new)
        (RemainsFrom ⟦<FileOf<G> as Disk>⟧ (image_at G.Start)
        (site_acts P.sends P.receives_within C.reads) run.now place.old.before parts.new
        (in_room W.contents V.contents room.old) (state over_files conn.old).now) }
    ensures left { HasCleanDisk (state over_files conn.new)
        → IsTrue (state over_files conn.old).is_open
        → (state over_files conn.old).committed ≡ (state over_files conn.old).now
        → IsTrue (state over_files conn.new).is_open
        → IsLeftFrom ⟦<FileOf<G> as Disk>⟧ (image_at G.Start)
        (site_acts P.sends P.receives_within C.reads) run.now place.old.before parts.new
        (in_room W.contents V.contents room.old) (state over_files conn.old).now
        (state over_files conn.new).committed.trees }
    ensures alone { KeepsPart ⟦<FileOf<G> as Disk>⟧ (image_at G.Start) parts.old parts.new }
    ensures place { (place.new.path ≡ place.old.path) × (place.new.before ≡ place.old.before) }
    ensures room { IsSameRoom room.old room.new }
{
    keep_in(alloc, run, conn, parts, place, room)
}

// How a run ends whose file was closed, or couldn't be.
fn ended(came: Result<Status, Fault>, closed: Result<(), Error>) -> Result<Status, Fault>
    ensures { result ≡ ended came closed }
{
    match closed {
        Ok(()) => came,
        Err(error) => match came {
            Ok(_) => Err(Fault::File(FileFault::Database(error))),
            Err(why) => Err(why),
        },
    }
}

// Whether the file may be made.
fn may_make(run: &Run, place: &Place) -> bool
    ensures { result ≡ may_make run.now place.now.before }
{
    !run.named.is_empty() || place.before.is_some()
}

/// A run over the file at a place, which is opened for it, and closed.
pub fn keep_file<F: Start, G: Start, P: Port, C: Clock, W: Write, V: Write>(
    alloc: Global,
    run: &Run,
    files: &mut DiskFiles<'_, F>,
    parts: &mut DiskFiles<'_, G>,
    place: &mut Place,
    room: &mut Room<'_, '_, '_, '_, P, C, W, V>,
) -> Result<Status, Fault>
    // How it ends, and what a kill leaves until then.
    ensures runs { RunsAt ⟦<FileOf<F> as Disk>⟧ (image_at F.Start) ⟦<FileOf<G> as Disk>⟧
        (image_at G.Start) (site_acts P.sends P.receives_within C.reads) run.now place.old
        place.new.blames_before files.old files.new parts.new
        (in_room W.contents V.contents room.old) (in_room W.contents V.contents room.new) result }
    // The closed files hold what the run kept.
    ensures kept { IfOk result (KeepsAt ⟦<FileOf<F> as Disk>⟧ (image_at F.Start)
        ⟦<FileOf<G> as Disk>⟧ (image_at G.Start) (site_acts P.sends P.receives_within C.reads)
        run.now place.old files.new parts.new (in_room W.contents V.contents room.old)
        (in_room W.contents V.contents room.new)) }
    // Whatever comes of it, they hold what they held, or what a kill leaves.
    ensures left { IsLeftAt ⟦<FileOf<F> as Disk>⟧ (image_at F.Start) ⟦<FileOf<G> as Disk>⟧
        (image_at G.Start) (site_acts P.sends P.receives_within C.reads) run.now place.old
        files.old files.new parts.new (in_room W.contents V.contents room.old) }
    // The part before is only read.
    ensures alone { KeepsPart ⟦<FileOf<G> as Disk>⟧ (image_at G.Start) parts.old parts.new }
    ensures place { (place.new.path ≡ place.old.path) × (place.new.before ≡ place.old.before) }
    ensures room { IsSameRoom room.old room.new }
{
    place.blames_before = false;
    match open_file(files, place.path.as_str(), may_make(run, place)) {
        Ok(mut conn) => {
            let came = keep_over(alloc, run, &mut conn, parts, place, room);
            let closed = files.close(conn);
            ended(came, closed)
        }
        Err(why) => Err(Fault::File(why)),
    }
}
