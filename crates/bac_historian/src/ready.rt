//! A part of a folder begins.

ghost use Rattle.std.specs.Prelude.{◌≡◌, IfErr, OnOk, false};
ghost use Rattle.sqlite.specs.Held.{state};
ghost use Rattle.sqlite.specs.State.{HasCleanDisk, Survives};
ghost use Rattle.sqlite_wal.specs.Files.{image_at};
ghost use Rattle.bac_parts.specs.Begun.{WhyNotBegun};
ghost use Rattle.bac_historian.specs.Files.{KeepsPart};
ghost use Rattle.bac_historian.specs.Kept.{FollowsOne, IsReadyIn};

use bac_archive::is_nothing;
use bac_files::{DiskFiles, FileOf, Place};
use bac_parts::{FileFault, begin_archive};
use sqlite::{Alter, Connection, Start};
use sqlite_disk::Disk;
use std::alloc::Global;

/// A database that has nothing and is to follow on a part does so then. Any other is left as it is.
pub(crate) fn make_ready<A: Alter, G: Start>(
    alloc: Global,
    conn: &mut Connection<A>,
    parts: &mut DiskFiles<'_, G>,
    place: &mut Place,
    made: &str,
) -> Result<(), FileFault>
    ensures ready { HasCleanDisk (state A.Store conn.new)
        → OnOk result (IsReadyIn ⟦<FileOf<G> as Disk>⟧ (image_at G.Start) A.Store place.old.before
        parts.new conn.old conn.new) }
    // Why it isn't begun, and whether the part before is blamed.
    ensures refused { IfErr result (WhyNotBegun ⟦<FileOf<G> as Disk>⟧ (image_at G.Start) A.Store
        made.now place.old.before place.new.blames_before parts.new conn.old conn.new) }
    ensures blamed { OnOk result (place.new.blames_before ≡ false) }
    ensures crash { Survives (state A.Store conn.old) (state A.Store conn.new)
        (λ trees. (part : _) × FollowsOne ⟦<FileOf<G> as Disk>⟧ (image_at G.Start) place.old.before
        parts.new (state A.Store conn.old).now part × (trees ≡ part.trees)) }
    ensures alone { KeepsPart ⟦<FileOf<G> as Disk>⟧ (image_at G.Start) parts.old parts.new }
    ensures place { (place.new.path ≡ place.old.path) × (place.new.before ≡ place.old.before) }
{
    place.blames_before = false;
    if place.before.is_none() {
        return Ok(());
    }
    if !is_nothing(conn.schema()) {
        return Ok(());
    }
    begin_archive(alloc, conn, parts, place, made)
}
