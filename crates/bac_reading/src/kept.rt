//! The parts of an archive are printed, one after the other.

ghost use Rattle.std.specs.Prelude.{◌≡◌, ◌⊎◌, ◌&&◌, Err, Ok, map};
ghost use Rattle.std.specs.Io.KnownBytes.{Keeps};
ghost use Rattle.std.specs.String.{string_bytes};
ghost use Rattle.sqlite.specs.State.{HasCleanDisk};
ghost use Rattle.sqlite.specs.Held.{state};
ghost use Rattle.bac_archive.specs.Archive.{IsArchive};
ghost use Rattle.bac_files.specs.Parts.{part_rules, reading};
ghost use Rattle.bac_kept.specs.Csv.{has_names};
ghost use Rattle.bac_kept.specs.Faults.{IsLeftAs};
ghost use Rattle.bac_parts.specs.Visits.{IsAsFound};
ghost use Rattle.bac_reading.specs.Kept.{EndsPart, Finishes, IsFresh, PrintsArchive, PrintsBy};
ghost use Rattle.bac_reading.specs.Kept.{PrintsIt, PrintsTaken, is_going};
ghost use Rattle.bac_reading.specs.Scene.{scene};

use crate::fault::{Fault, Stop, stop_of, text_fault};
use crate::listing::Archive;
use crate::program::Asked;
use crate::report::Report;
use crate::taking::take;
use bac_files::{NotOpened, Parts, Reader};
use bac_kept::{Seen, Words, has_names, print_names, print_part};
use bac_parts::{Visitor, read_on};
use sqlite::{Alter, Connection, Error};
use std::alloc::Global;
use std::io::Write;

/// Prints the parts of an archive.
#[derive(Drop)]
pub(crate) struct Printer<'a> {
    alloc: Global,
    words: Words<'a>,
    /// The row of names stands before what the next archive keeps.
    names: bool,
    /// What was printed.
    seen: Seen,
    /// A log of the parts was chosen.
    has_any: bool,
    /// What came of the part that was read last.
    came: Result<(), Stop>,
    report: Report<'a>,
}

impl<'a> Printer<'a> {
    /// Nothing was printed yet, but of a folder the row of names.
    fn new(alloc: Global, words: Words<'a>, archive: &'a Archive) -> Printer<'a>
        ensures { IsFresh words.entry archive.now.is_folder
            (map string_bytes archive.now.paths.items) result }
    {
        Printer {
            alloc,
            words,
            names: has_names(words.form) && !archive.is_folder,
            seen: Seen::new(alloc),
            has_any: false,
            came: Ok(()),
            report: Report::new(alloc, archive.newest(1)),
        }
    }

    /// Prints an archive behind the row of names, if that is still to be written.
    fn print_taken<A: Alter, O: Write>(
        &mut self,
        conn: &mut Connection<A>,
        output: &mut O,
    ) -> Result<(), Stop>
        requires { HasCleanDisk (state A.Store conn.old) → IsArchive (state A.Store conn.old).now }
        ensures printed { PrintsTaken result self.old
            (reading (state A.Store conn.old) (state A.Store conn.new))
            (O.contents output.old) (O.contents output.new) self.new }
        ensures same { (self.new.words ≡ self.old.words) × (self.new.report ≡ self.old.report) }
        ensures left { HasCleanDisk (state A.Store conn.new)
            → IsLeftAs A.Store conn.old conn.new }
        ensures clean { HasCleanDisk (state A.Store conn.new)
            → HasCleanDisk (state A.Store conn.old) }
    {
        match print_names(self.alloc, self.names, output) {
            Ok(()) => self.names = false,
            Err(why) => return Err(stop_of(why)),
        }
        match print_part(self.alloc, conn, &self.words, &mut self.seen, output) {
            Ok(any) => {
                self.has_any = self.has_any | any;
                Ok(())
            }
            Err(why) => Err(stop_of(why)),
        }
    }

    /// Prints an open database, which has to be an archive.
    fn print<A: Alter, O: Write>(
        &mut self,
        conn: &mut Connection<A>,
        output: &mut O,
    ) -> Result<(), Stop>
        ensures printed { PrintsBy result self.old
            (reading (state A.Store conn.old) (state A.Store conn.new))
            (O.contents output.old) (O.contents output.new) self.new }
        ensures same { (self.new.words ≡ self.old.words) × (self.new.report ≡ self.old.report) }
        ensures left { IsAsFound (reading (state A.Store conn.old) (state A.Store conn.new)) }
    {
        take(conn)?;
        self.print_taken(conn, output)
    }
}

impl<'a> Reader for Printer<'a> {
    ghost reads = { PrintsIt };

    fn read<A: Alter, O: Write>(&mut self, conn: &mut Connection<A>, output: &mut O) {
        self.came = self.print(conn, output);
    }
}

impl<'a> Visitor for Printer<'a> {
    ghost wants = { is_going };

    ghost ends = { EndsPart };

    fn wants_more(&self) -> bool {
        self.report.goes_on()
    }

    fn end(&mut self, path: &str, came: Result<Result<(), Error>, NotOpened>) {
        self.report.end(path, self.came, came);
    }
}

/// What was printed, of some log that is chosen or of none, goes out.
fn sent<O: Write>(output: &mut O, any: bool) -> Result<bool, Fault>
    ensures sent { (result ≡ Ok any) ⊎ (result ≡ Err Fault.Write) }
    ensures kept { Keeps (O.contents output.old) (O.contents output.new) }
{
    match output.flush() {
        Ok(()) => Ok(any),
        Err(_) => Err(Fault::Write),
    }
}

impl<'a> Printer<'a> {
    /// What was printed goes out; that no log was chosen is told.
    fn finish<O: Write>(&mut self, name: &str, output: &mut O)
        ensures { Finishes name.now self.old self.new (O.contents output.old)
            (O.contents output.new) }
    {
        if !self.report.goes_on() {
            return;
        }
        let printed = sent(output, self.has_any);
        self.report.settle(name, self.words.choice, printed);
    }
}

/// Whether the row of names stands before all parts: of a folder, as CSV.
fn has_first_row(asked: &Asked<'_>, archive: &Archive) -> bool
    ensures { result ≡ (has_names asked.now.words.form && archive.now.is_folder) }
{
    has_names(asked.words.form) && archive.is_folder
}

/// Prints what the parts of an archive keep, of a folder behind the row of names.
pub(crate) fn print_archive<P: Parts, O: Write, E: Write>(
    parts: &mut P,
    alloc: Global,
    asked: &Asked<'_>,
    archive: &Archive,
    output: &mut O,
    errors: &mut E,
) -> Result<u8, Fault>
    ensures { PrintsArchive (part_rules P.lists P.holds P.bars) asked.now archive.now.is_folder
        (map string_bytes archive.now.paths.items)
        (scene parts.old (O.contents output.old) (E.contents errors.old)) result
        (scene parts.new (O.contents output.new) (E.contents errors.new)) }
{
    match print_names(alloc, has_first_row(asked, archive), output) {
        Ok(()) => {}
        Err(why) => return Err(text_fault(why)),
    }
    let mut printer = Printer::new(alloc, asked.words, archive);
    read_on(parts, &mut printer, archive.paths.as_slice(), output);
    printer.finish(asked.file, output);
    printer.report.close(errors)
}
