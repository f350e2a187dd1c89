//! A part of an archive is begun: it follows on the one before it.

ghost use Rattle.std.specs.Prelude.{◌≡◌, ◌≢◌, ◌⊎◌, [], IfErr, IfOk, IfSome, IsTrue, None, OnErr};
ghost use Rattle.std.specs.Prelude.{OnOk, Some, false, true};
ghost use Rattle.std.specs.String.{string_bytes};
ghost use Rattle.sqlite.specs.Held.{state};
ghost use Rattle.sqlite.specs.State.{HasCleanDisk, IsUnchanged, Survives};
ghost use Rattle.sqlite_wal.specs.Files.{image_at};
ghost use Rattle.bac_archive.specs.Follow.{puts_of};
ghost use Rattle.bac_archive.specs.Making.{IsMadeOf};
ghost use Rattle.bac_archive.specs.Schema.{OverArchive, no_schema};
ghost use Rattle.bac_files.specs.Files.{IsDoneTo, IsUnused};
ghost use Rattle.bac_parts.specs.Archives.{IsAsWas};
ghost use Rattle.bac_parts.specs.Begun.{BarsBefore, BeginsAs, FailsBefore, FailsPut, FillsFrom};
ghost use Rattle.bac_parts.specs.Begun.{IsBegunAs, IsLeftAlone, IsPartOf, IsToldBefore};
ghost use Rattle.bac_parts.specs.Begun.{TellsBefore, TellsIn, TellsOver, WhyNotBegun};
ghost use Rattle.bac_parts.specs.Begun.{WhyUnbegun, WhyUntold};

use crate::archives::{and_shut, open_archive, take_archive};
use crate::fault::FileFault;
use crate::works::{Done, Work, work_in};
use bac_archive::{Standing, is_nothing, make, puts_of, stands};
use bac_files::{DiskFiles, FileOf, Place};
use sqlite::{Alter, Connection, Error, Start};
use sqlite_disk::Disk;
use std::alloc::Global;

/// What an archive tells, which is left as it is; of a database that has nothing none is made.
fn told_of<A: Alter>(alloc: Global, conn: &mut Connection<A>) -> Result<Standing, FileFault>
    ensures told { HasCleanDisk (state A.Store conn.new)
        → IfOk result (TellsIn (state A.Store conn.old) (state A.Store conn.new)) }
    ensures why { IfErr result (WhyUntold A.Store conn.old conn.new) }
    ensures alone { IsLeftAlone (state A.Store conn.old) (state A.Store conn.new) }
    ensures crash { Survives (state A.Store conn.old) (state A.Store conn.new) (λ _. ⊥) }
    ensures clean { HasCleanDisk (state A.Store conn.new) → HasCleanDisk (state A.Store conn.old) }
{
    match take_archive(conn) {
        Ok(()) => match stands(alloc, conn) {
            Ok(told) => Ok(told),
            Err(error) => Err(FileFault::Database(error)),
        },
        Err(why) => Err(why),
    }
}

/// An archive tells what stands in it.
#[derive(Drop)]
struct Telling {
    alloc: Global,
}

impl Work<(), Result<Standing, FileFault>> for Telling {
    ghost can_work = { λ it with. Unit {0} };

    ghost does = { λ it over before after told. TellsOver over told };

    fn work<A: Alter>(
        &self,
        conn: &mut Connection<A>,
        with: &mut (),
    ) -> Result<Standing, FileFault> {
        let _with = with;
        told_of(self.alloc, conn)
    }
}

/// What the archive of this name tells, which is left as it is.
fn told_in<G: Start>(
    alloc: Global,
    parts: &mut DiskFiles<'_, G>,
    before: &str,
) -> Result<Standing, FileFault>
    ensures told { IfOk result (TellsBefore ⟦<FileOf<G> as Disk>⟧ (image_at G.Start) before.now
        parts.new) }
    ensures why { IfErr result (FailsBefore ⟦<FileOf<G> as Disk>⟧ (image_at G.Start) before.now
        parts.new) }
    // Whatever comes of it, what was in the file is there as it was.
    ensures alone { IsUnused parts.old → IfSome parts.new.closed
        (IsDoneTo ⟦<FileOf<G> as Disk>⟧ (image_at G.Start) (λ found left. left ≡ found)) }
{
    match work_in(parts, before, &Telling { alloc }, &mut ()) {
        Ok(done) => {
            let Done { came, closed } = done;
            and_shut(came, closed)
        }
        Err(why) => Err(FileFault::Unopened(why)),
    }
}

/// Puts what an archive told into a database that has nothing: all of it or nothing.
fn fill<A: Alter>(alloc: Global, conn: &mut Connection<A>, told: Standing) -> Result<(), Error>
    requires { (state A.Store conn.old).now.schema ≡ no_schema }
    ensures filled { HasCleanDisk (state A.Store conn.new)
        → OnOk result (IsMadeOf (string_bytes told.made) (state A.Store conn.new).now
        (puts_of told)) }
    ensures cause { HasCleanDisk (state A.Store conn.new)
        → IfErr result (FailsPut A.Store told conn.old) }
    ensures crash { Survives (state A.Store conn.old) (state A.Store conn.new)
        (λ trees. (db : _) × IsMadeOf (string_bytes told.made) db (puts_of told)
        × (trees ≡ db.trees)) }
{
    let made = told.made.clone()?;
    let puts = puts_of(alloc, told)?;
    make(conn, made.as_str(), puts.as_slice())
}

/// The same, and opens it as an archive.
fn fill_and_open<A: Alter>(
    alloc: Global,
    conn: &mut Connection<A>,
    told: Standing,
    made: &str,
) -> Result<(), FileFault>
    requires { (state A.Store conn.old).now.schema ≡ no_schema }
    ensures archive { HasCleanDisk (state A.Store conn.new)
        → OnOk result (BeginsAs (Some told) made.now (state A.Store conn.old).now
        (state A.Store conn.new).now) }
    ensures committed { HasCleanDisk (state A.Store conn.new)
        → OnOk result ((state A.Store conn.new).committed ≡ (state A.Store conn.new).now) }
    ensures refused { IfErr result
        (WhyUnbegun A.Store (Some told) made.now conn.old conn.new) }
    ensures crash { Survives (state A.Store conn.old) (state A.Store conn.new)
        (λ trees. (db : _) × FillsFrom (Some told) made.now db × (trees ≡ db.trees)) }
{
    match fill(alloc, conn, told) {
        Ok(()) => open_archive(conn, made),
        Err(error) => Err(FileFault::Database(error)),
    }
}

/// Opens a database as an archive; of one that has nothing an archive is made: with what the part
/// before told, if it is to follow on one, and else with nothing.
fn begin_from<A: Alter>(
    alloc: Global,
    conn: &mut Connection<A>,
    told: Option<Standing>,
    made: &str,
) -> Result<(), FileFault>
    requires { IfSome told (λ _. (state A.Store conn.old).now.schema ≡ no_schema) }
    ensures archive { HasCleanDisk (state A.Store conn.new)
        → OnOk result (BeginsAs told made.now (state A.Store conn.old).now
        (state A.Store conn.new).now) }
    ensures committed { HasCleanDisk (state A.Store conn.new)
        → OnOk result ((state A.Store conn.new).committed ≡ (state A.Store conn.new).now) }
    ensures same { OverArchive (state A.Store conn.old) (state A.Store conn.new)
        (OnOk result (IsUnchanged (state A.Store conn.old) (state A.Store conn.new))) }
    ensures refused { IfErr result (WhyUnbegun A.Store told made.now conn.old conn.new) }
    ensures left { HasCleanDisk (state A.Store conn.new) → IsTrue (state A.Store conn.new).is_open
        → (state A.Store conn.old).now.schema ≢ no_schema
        → OnErr result (IsAsWas (state A.Store conn.old) (state A.Store conn.new)) }
    ensures crash { Survives (state A.Store conn.old) (state A.Store conn.new)
        (λ trees. ((state A.Store conn.old).now.schema ≡ no_schema)
        × ((db : _) × FillsFrom told made.now db × (trees ≡ db.trees))) }
{
    match told {
        Some(told) => fill_and_open(alloc, conn, told, made),
        None => open_archive(conn, made),
    }
}

/// What the part before tells, where a database has nothing and is to follow on one.
fn told_before<G: Start>(
    alloc: Global,
    has_nothing: bool,
    parts: &mut DiskFiles<'_, G>,
    before: &Option<String>,
) -> Result<Option<Standing>, FileFault>
    ensures told { IfOk result (IsToldBefore ⟦<FileOf<G> as Disk>⟧ (image_at G.Start)
        has_nothing before.now parts.new) }
    ensures why { IfErr result (BarsBefore ⟦<FileOf<G> as Disk>⟧ (image_at G.Start)
        has_nothing before.now parts.new) }
    // Whatever comes of it, what was in its file is there as it was.
    ensures alone { IsUnused parts.old → IfSome parts.new.closed
        (IsDoneTo ⟦<FileOf<G> as Disk>⟧ (image_at G.Start) (λ found left. left ≡ found)) }
{
    let Some(before) = before else {
        return Ok(None);
    };
    if !has_nothing {
        return Ok(None);
    }
    match told_in(alloc, parts, before.as_str()) {
        Ok(told) => Ok(Some(told)),
        Err(why) => Err(why),
    }
}

/// Opens a database as an archive. One that has nothing becomes the part that follows on the one
/// before it, if there is one, and else an archive of this moment, with nothing in it. The part
/// before is only read, and closed before anything is written.
pub fn begin_archive<A: Alter, G: Start>(
    alloc: Global,
    conn: &mut Connection<A>,
    parts: &mut DiskFiles<'_, G>,
    place: &mut Place,
    made: &str,
) -> Result<(), FileFault>
    ensures archive { HasCleanDisk (state A.Store conn.new)
        → OnOk result (IsBegunAs ⟦<FileOf<G> as Disk>⟧ (image_at G.Start) made.now
        place.old.before parts.new (state A.Store conn.old).now (state A.Store conn.new).now) }
    ensures committed { HasCleanDisk (state A.Store conn.new)
        → OnOk result ((state A.Store conn.new).committed ≡ (state A.Store conn.new).now) }
    ensures same { OverArchive (state A.Store conn.old) (state A.Store conn.new)
        (OnOk result (IsUnchanged (state A.Store conn.old) (state A.Store conn.new))) }
    // Why it is refused, and whom the place blames.
    ensures refused { IfErr result (WhyNotBegun ⟦<FileOf<G> as Disk>⟧ (image_at G.Start) A.Store
        made.now place.old.before place.new.blames_before parts.new conn.old conn.new) }
    ensures blamed { OnOk result (place.new.blames_before ≡ false) }
    ensures left { HasCleanDisk (state A.Store conn.new) → IsTrue (state A.Store conn.new).is_open
        → (state A.Store conn.old).now.schema ≢ no_schema
        → OnErr result (IsAsWas (state A.Store conn.old) (state A.Store conn.new)) }
    // Killed at any moment, the file holds what it held; or it had nothing, and holds all of the
    // part that was begun.
    ensures crash { Survives (state A.Store conn.old) (state A.Store conn.new)
        (λ trees. ((state A.Store conn.old).now.schema ≡ no_schema)
        × IsPartOf ⟦<FileOf<G> as Disk>⟧ (image_at G.Start) made.now place.old.before parts.new
        trees) }
    // Whatever comes of it, what was in the file of the part before is there as it was.
    ensures alone { IsUnused parts.old → IfSome parts.new.closed
        (IsDoneTo ⟦<FileOf<G> as Disk>⟧ (image_at G.Start) (λ found left. left ≡ found)) }
    ensures place { (place.new.path ≡ place.old.path) × (place.new.before ≡ place.old.before) }
{
    let has_nothing = is_nothing(conn.schema());
    place.blames_before = true;
    let told = match told_before(alloc, has_nothing, parts, &place.before) {
        Ok(told) => told,
        Err(why) => return Err(why),
    };
    place.blames_before = false;
    begin_from(alloc, conn, told, made)
}
