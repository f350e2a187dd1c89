//! The newest record of each log is looked for in the parts of an archive, from the newest back.

ghost use Rattle.std.specs.Prelude.{◌≡◌, IfErr, IfOk, None, OnErr, OnOk, map};
ghost use Rattle.std.specs.String.{string_bytes};
ghost use Rattle.sqlite.specs.State.{HasCleanDisk};
ghost use Rattle.sqlite.specs.Held.{state};
ghost use Rattle.bac_archive.specs.Archive.{IsArchive};
ghost use Rattle.bac_archive.specs.Ask.{IsAsWas};
ghost use Rattle.bac_files.specs.Parts.{part_rules, reading};
ghost use Rattle.bac_kept.specs.Faults.{IsLeftAs};
ghost use Rattle.bac_parts.specs.Visits.{IsAsFound};
ghost use Rattle.bac_reading.specs.Last.{Begins, EndsSearch, FailsToLook, FindsLasts};
ghost use Rattle.bac_reading.specs.Last.{FinishesSearch, IsUnsought, PrintsOf, SeeksBy, SeeksIt};
ghost use Rattle.bac_reading.specs.Last.{SeeksTaken, is_seeking};
ghost use Rattle.bac_reading.specs.Scene.{scene};

use crate::fault::{Fault, Stop, stop_of, text_fault};
use crate::listing::Archive;
use crate::program::Asked;
use crate::report::Report;
use crate::taking::take;
use bac_files::{NotOpened, Parts, Reader};
use bac_kept::{Lasts, Words};
use bac_parts::{Visitor, read_back};
use sqlite::{Alter, Connection, Error};
use std::alloc::Global;
use std::io::Write;

/// Looks for the newest record of each log.
#[derive(Drop)]
pub(crate) struct Seeker<'a> {
    alloc: Global,
    words: Words<'a>,
    /// What was found; nothing, if no part was read yet.
    lasts: Option<Lasts>,
    /// The record of a log is still to be found.
    seeks: bool,
    /// What came of the part that was read last.
    came: Result<(), Stop>,
    report: Report<'a>,
}

impl<'a> Seeker<'a> {
    /// Nothing was looked for yet.
    fn new(alloc: Global, words: Words<'a>, archive: &'a Archive) -> Seeker<'a>
        ensures { IsUnsought words.entry archive.now.is_folder
            (map string_bytes archive.now.paths.items) result }
    {
        Seeker {
            alloc,
            words,
            lasts: None,
            seeks: true,
            came: Ok(()),
            report: Report::new(alloc, archive.newest(1)),
        }
    }

    /// What was found, or of the first archive which logs it has; it is taken out.
    fn begun<A: Alter>(&mut self, conn: &mut Connection<A>) -> Result<Lasts, Stop>
        requires { HasCleanDisk (state A.Store conn.old) → IsArchive (state A.Store conn.old).now }
        ensures begun { HasCleanDisk (state A.Store conn.new)
            → IfOk result (Begins (state A.Store conn.old).now.trees self.old.lasts) }
        ensures taken { self.new ≡ record self.old { lasts = None } }
        ensures same { HasCleanDisk (state A.Store conn.new)
            → OnOk result (IsAsWas A.Store conn.old conn.new) }
        ensures left { HasCleanDisk (state A.Store conn.new)
            → IsLeftAs A.Store conn.old conn.new }
        ensures clean { HasCleanDisk (state A.Store conn.new)
            → HasCleanDisk (state A.Store conn.old) }
        ensures fault { OnErr result (self.old.lasts ≡ None) }
        ensures why { HasCleanDisk (state A.Store conn.new)
            → IfErr result FailsToLook }
    {
        match self.lasts.take() {
            Some(lasts) => Ok(lasts),
            None => match Lasts::begin(self.alloc, conn) {
                Ok(lasts) => Ok(lasts),
                Err(why) => Err(stop_of(why)),
            },
        }
    }

    /// Looks in an archive for the records that weren't found yet.
    fn seek_taken<A: Alter>(&mut self, conn: &mut Connection<A>) -> Result<(), Stop>
        requires { HasCleanDisk (state A.Store conn.old) → IsArchive (state A.Store conn.old).now }
        ensures sought { SeeksTaken result self.old
            (reading (state A.Store conn.old) (state A.Store conn.new)) self.new }
        ensures same { (self.new.words ≡ self.old.words) × (self.new.report ≡ self.old.report) }
        ensures left { HasCleanDisk (state A.Store conn.new)
            → IsLeftAs A.Store conn.old conn.new }
        ensures clean { HasCleanDisk (state A.Store conn.new)
            → HasCleanDisk (state A.Store conn.old) }
    {
        let mut lasts = self.begun(conn)?;
        let looked = lasts.look(self.alloc, conn, self.words.choice);
        self.lasts = Some(lasts);
        match looked {
            Ok(more) => {
                self.seeks = more;
                Ok(())
            }
            Err(why) => Err(stop_of(why)),
        }
    }

    /// Looks in an open database, which has to be an archive.
    fn seek<A: Alter>(&mut self, conn: &mut Connection<A>) -> Result<(), Stop>
        ensures sought { SeeksBy result self.old
            (reading (state A.Store conn.old) (state A.Store conn.new)) self.new }
        ensures same { (self.new.words ≡ self.old.words) × (self.new.report ≡ self.old.report) }
        ensures left { IsAsFound (reading (state A.Store conn.old) (state A.Store conn.new)) }
    {
        take(conn)?;
        self.seek_taken(conn)
    }
}

impl<'a> Reader for Seeker<'a> {
    ghost reads = { SeeksIt };

    fn read<A: Alter, O: Write>(&mut self, conn: &mut Connection<A>, _output: &mut O) {
        self.came = self.seek(conn);
    }
}

impl<'a> Visitor for Seeker<'a> {
    ghost wants = { is_seeking };

    ghost ends = { EndsSearch };

    fn wants_more(&self) -> bool {
        self.seeks && self.report.goes_on()
    }

    fn end(&mut self, path: &str, came: Result<Result<(), Error>, NotOpened>) {
        self.report.end(path, self.came, came);
    }
}

impl<'a> Seeker<'a> {
    /// Prints what was found, which goes out; answers whether a log was chosen.
    fn print<O: Write>(&self, output: &mut O) -> Result<bool, Fault>
        ensures { PrintsOf self.now.words self.now.lasts result (O.contents output.old)
            (O.contents output.new) }
    {
        let Some(lasts) = &self.lasts else {
            return Ok(false);
        };
        let Ok(any) = lasts.has_chosen(self.alloc, self.words.choice) else {
            return Err(Fault::Memory);
        };
        match lasts.print(self.alloc, &self.words, output) {
            Ok(()) => {}
            Err(why) => return Err(text_fault(why)),
        }
        match output.flush() {
            Ok(()) => Ok(any),
            Err(_) => Err(Fault::Write),
        }
    }

    /// What was found is printed; that no log was chosen is told.
    fn finish<O: Write>(&mut self, name: &str, output: &mut O)
        ensures { FinishesSearch name.now self.old self.new (O.contents output.old)
            (O.contents output.new) }
    {
        if !self.report.goes_on() {
            return;
        }
        let printed = self.print(output);
        self.report.settle(name, self.words.choice, printed);
    }
}

/// Prints the newest record of each log of an archive. Of its parts the newest is read, and, as
/// long as the record of a log isn't found, the ones before it.
pub(crate) fn find_lasts<P: Parts, O: Write, E: Write>(
    parts: &mut P,
    alloc: Global,
    asked: &Asked<'_>,
    archive: &Archive,
    output: &mut O,
    errors: &mut E,
) -> Result<u8, Fault>
    ensures { FindsLasts (part_rules P.lists P.holds P.bars) asked.now archive.now.is_folder
        (map string_bytes archive.now.paths.items)
        (scene parts.old (O.contents output.old) (E.contents errors.old)) result
        (scene parts.new (O.contents output.new) (E.contents errors.new)) }
{
    let mut seeker = Seeker::new(alloc, asked.words, archive);
    read_back(parts, &mut seeker, archive.paths.as_slice(), output);
    seeker.finish(asked.file, output);
    seeker.report.close(errors)
}
