//! `bac check` of an archive of format 3.

ghost use Rattle.std.specs.Prelude.{◌≡◌, map};
ghost use Rattle.std.specs.String.{string_bytes};
ghost use Rattle.sqlite.specs.State.{HasCleanDisk};
ghost use Rattle.sqlite.specs.Held.{state};
ghost use Rattle.bac_archive.specs.Archive.{IsArchive};
ghost use Rattle.bac_files.specs.Parts.{Listing, part_rules, reading};
ghost use Rattle.bac_kept.specs.Faults.{IsLeftAs};
ghost use Rattle.bac_parts.specs.Visits.{IsAsFound};
ghost use Rattle.bac_reading.specs.Checking.{ChecksArchive, CountsBy, CountsIt, CountsTaken};
ghost use Rattle.bac_reading.specs.Checking.{EndsCount, FinishesCheck, IsUncheckedYet, RunsCheck};
ghost use Rattle.bac_reading.specs.Checking.{is_counting};
ghost use Rattle.bac_reading.specs.Scene.{scene};

use crate::fault::{Fault, Stop, Trouble, of_uncounted, of_unprinted};
use crate::listing::{Archive, archive_of};
use crate::report::{Report, tell_alone};
use crate::taking::take;
use bac_check::{Counts, Ending, print};
use bac_files::{NotOpened, Parts, Reader};
use bac_parts::{Visitor, read_on};
use sqlite::{Alter, Connection, Error};
use std::alloc::Global;
use std::io::Write;

/// Counts the rows of the parts of an archive.
#[derive(Drop)]
pub(crate) struct Checker<'a> {
    alloc: Global,
    counts: Counts,
    /// What came of the part that was read last.
    came: Result<(), Stop>,
    report: Report<'a>,
}

impl<'a> Checker<'a> {
    /// Nothing is counted yet.
    fn new(alloc: Global, archive: &'a Archive) -> Checker<'a>
        ensures { IsUncheckedYet archive.now.is_folder (map string_bytes archive.now.paths.items)
            result }
    {
        Checker {
            alloc,
            counts: Counts::new(alloc),
            came: Ok(()),
            report: Report::new(alloc, archive.newest(2)),
        }
    }

    /// Counts the rows of an archive, which has to go on where the part before ends.
    fn count_taken<A: Alter>(&mut self, conn: &mut Connection<A>) -> Result<(), Stop>
        requires { HasCleanDisk (state A.Store conn.old) → IsArchive (state A.Store conn.old).now }
        ensures counted { CountsTaken result self.old
            (reading (state A.Store conn.old) (state A.Store conn.new)) self.new }
        ensures same { self.new.report ≡ self.old.report }
        ensures left { HasCleanDisk (state A.Store conn.new)
            → IsLeftAs A.Store conn.old conn.new }
        ensures clean { HasCleanDisk (state A.Store conn.new)
            → HasCleanDisk (state A.Store conn.old) }
    {
        match self.counts.count(self.alloc, conn) {
            Ok(true) => Ok(()),
            Ok(false) => Err(Stop::Trouble(Trouble::Check(Ending::Apart))),
            Err(why) => Err(Stop::Trouble(of_uncounted(why))),
        }
    }

    /// Counts the rows of an open database, which has to be an archive.
    fn count<A: Alter>(&mut self, conn: &mut Connection<A>) -> Result<(), Stop>
        ensures counted { CountsBy result self.old
            (reading (state A.Store conn.old) (state A.Store conn.new)) self.new }
        ensures same { self.new.report ≡ self.old.report }
        ensures left { IsAsFound (reading (state A.Store conn.old) (state A.Store conn.new)) }
    {
        take(conn)?;
        self.count_taken(conn)
    }
}

impl<'a> Reader for Checker<'a> {
    ghost reads = { CountsIt };

    fn read<A: Alter, O: Write>(&mut self, conn: &mut Connection<A>, _output: &mut O) {
        self.came = self.count(conn);
    }
}

impl<'a> Visitor for Checker<'a> {
    ghost wants = { is_counting };

    ghost ends = { EndsCount };

    fn wants_more(&self) -> bool {
        self.report.goes_on()
    }

    fn end(&mut self, path: &str, came: Result<Result<(), Error>, NotOpened>) {
        self.report.end(path, self.came, came);
    }
}

impl<'a> Checker<'a> {
    /// Prints what was counted; that numbers are missing is told.
    fn finish<O: Write>(&mut self, name: &str, output: &mut O)
        ensures { FinishesCheck name.now self.old self.new (O.contents output.old)
            (O.contents output.new) }
    {
        if !self.report.goes_on() {
            return;
        }
        match print(self.alloc, &self.counts, output) {
            Ok(true) => {}
            Ok(false) => self.report.tell(name, Trouble::Check(Ending::Missing)),
            Err(why) => self.report.stop(of_unprinted(why)),
        }
    }
}

/// Counts the rows of the parts of an archive, and prints what is counted.
fn check_archive<P: Parts, O: Write, E: Write>(
    parts: &mut P,
    alloc: Global,
    name: &str,
    archive: &Archive,
    output: &mut O,
    errors: &mut E,
) -> Result<u8, Fault>
    ensures { ChecksArchive (part_rules P.lists P.holds P.bars) name.now archive.now.is_folder
        (map string_bytes archive.now.paths.items)
        (scene parts.old (O.contents output.old) (E.contents errors.old)) result
        (scene parts.new (O.contents output.new) (E.contents errors.new)) }
{
    let mut checker = Checker::new(alloc, archive);
    read_on(parts, &mut checker, archive.paths.as_slice(), output);
    checker.finish(name, output);
    checker.report.close(errors)
}

/// Counts the numbers of each epoch of each log of the archive of this name, a file or a folder of
/// parts, prints them and which are missing; what is wrong with a part of it is told on the errors.
/// Answers the exit status: 0 just if nothing is told.
pub fn run_check<P: Parts, O: Write, E: Write>(
    parts: &mut P,
    alloc: Global,
    name: &str,
    output: &mut O,
    errors: &mut E,
) -> Result<u8, Fault>
    ensures { (listing : Listing) × (listed : P) × P.lists parts.old name.now listing listed
        × RunsCheck (part_rules P.lists P.holds P.bars) name.now listing
        (scene listed (O.contents output.old) (E.contents errors.old)) result
        (scene parts.new (O.contents output.new) (E.contents errors.new)) }
{
    match archive_of(parts, alloc, name) {
        Ok(archive) => check_archive(parts, alloc, name, &archive, output, errors),
        Err(stop) => tell_alone(alloc, name, stop, errors),
    }
}
