//! A run over an open database.

ghost use Rattle.std.specs.Prelude.{◌≡◌, IfErr, IfOk, IsTrue, OnOk, false};
ghost use Rattle.sqlite.specs.Held.{state};
ghost use Rattle.sqlite.specs.State.{HasCleanDisk, Survives};
ghost use Rattle.sqlite_wal.specs.Files.{image_at};
ghost use Rattle.bac_site_poller.specs.SiteLaws.{site_acts};
ghost use Rattle.bac_historian.specs.Files.{KeepsPart};
ghost use Rattle.bac_historian.specs.Kept.{HaltsFrom, IsCommitted, IsLeftFrom, KeepsFrom};
ghost use Rattle.bac_historian.specs.Kept.{RemainsFrom};
ghost use Rattle.bac_historian.specs.Room.{IsSameRoom, in_room};

use crate::fault::Fault;
use crate::ready::make_ready;
use crate::room::Room;
use bac_device_poller::Status;
use bac_drive::Clock;
use bac_files::{DiskFiles, FileOf, Place};
use bac_keeping::{Run, keep_site};
use bac_ports::Port;
use sqlite::{Alter, Connection, Start};
use sqlite_disk::Disk;
use std::alloc::Global;
use std::io::Write;

/// A run over an open database, which becomes an archive if it has nothing: the part that follows
/// on the one before it, if there is one.
pub fn keep_in<A: Alter, G: Start, P: Port, C: Clock, W: Write, V: Write>(
    alloc: Global,
    run: &Run,
    conn: &mut Connection<A>,
    parts: &mut DiskFiles<'_, G>,
    place: &mut Place,
    room: &mut Room<'_, '_, '_, '_, P, C, W, V>,
) -> Result<Status, Fault>
    ensures keeps { HasCleanDisk (state A.Store conn.new)
        → IfOk result (KeepsFrom ⟦<FileOf<G> as Disk>⟧ (image_at G.Start)
        (site_acts P.sends P.receives_within C.reads) run.now place.old.before parts.new
        (in_room W.contents V.contents room.old) (in_room W.contents V.contents room.new)
        (state A.Store conn.old).now (state A.Store conn.new).now) }
    // Why it halts, and whether the part before is blamed.
    ensures halts { IfErr result (HaltsFrom ⟦<FileOf<G> as Disk>⟧ (image_at G.Start) A.Store
        (site_acts P.sends P.receives_within C.reads) run.now place.old.before
        place.new.blames_before parts.new (in_room W.contents V.contents room.old)
        (in_room W.contents V.contents room.new) conn.old conn.new) }
    ensures blamed { OnOk result (place.new.blames_before ≡ false) }
    ensures committed { HasCleanDisk (state A.Store conn.new)
        → IsCommitted (state A.Store conn.old) (state A.Store conn.new) result }
    // Killed at any moment, it leaves what was there, the part as it begins, or what a run leaves.
    ensures crash { Survives (state A.Store conn.old) (state A.Store conn.new)
        (RemainsFrom ⟦<FileOf<G> as Disk>⟧ (image_at G.Start)
        (site_acts P.sends P.receives_within C.reads) run.now place.old.before parts.new
        (in_room W.contents V.contents room.old) (state A.Store conn.old).now) }
    // Whatever comes of it, that is so of what is committed, where no error shut the database.
    ensures left { HasCleanDisk (state A.Store conn.new)
        → IsTrue (state A.Store conn.old).is_open
        → (state A.Store conn.old).committed ≡ (state A.Store conn.old).now
        → IsTrue (state A.Store conn.new).is_open
        → IsLeftFrom ⟦<FileOf<G> as Disk>⟧ (image_at G.Start)
        (site_acts P.sends P.receives_within C.reads) run.now place.old.before parts.new
        (in_room W.contents V.contents room.old) (state A.Store conn.old).now
        (state A.Store conn.new).committed.trees }
    // The part before is only read.
    ensures alone { KeepsPart ⟦<FileOf<G> as Disk>⟧ (image_at G.Start) parts.old parts.new }
    ensures place { (place.new.path ≡ place.old.path) × (place.new.before ≡ place.old.before) }
    ensures room { IsSameRoom room.old room.new }
{
    match make_ready(alloc, conn, parts, place, run.moment.as_str()) {
        Ok(()) => match keep_site(
            alloc,
            run,
            &mut *room.port,
            &mut *room.clock,
            conn,
            &mut *room.output,
            &mut *room.errors,
        ) {
            Ok(status) => Ok(status),
            Err(why) => Err(Fault::Run(why)),
        },
        Err(why) => Err(Fault::File(why)),
    }
}
