//! `bac kept` of an archive of format 3.

ghost use Rattle.std.specs.Prelude.{◌≡◌};
ghost use Rattle.bac_files.specs.Parts.{Listing, part_rules};
ghost use Rattle.bac_reading.specs.Program.{RunsKept};
ghost use Rattle.bac_reading.specs.Scene.{scene};

use crate::fault::Fault;
use crate::kept::print_archive;
use crate::last::find_lasts;
use crate::listing::archive_of;
use crate::report::tell_alone;
use bac_files::Parts;
use bac_kept::Words;
use std::alloc::Global;
use std::io::Write;

/// What is to be printed of an archive.
#[derive(Clone, Copy)]
pub struct Asked<'a> {
    /// The database file, or a folder of parts.
    pub file: &'a str,
    pub words: Words<'a>,
    /// Of each log that isn't stopped the newest record alone, whichever dates are named.
    pub last: bool,
}

/// Prints what the archive of a name keeps of the logs that are chosen, of a folder what its parts
/// keep, each item once; or of each log the newest record. A part that is no use is told on the
/// errors, and the others are printed. Answers the exit status: 0 just if nothing is told.
pub fn run_kept<P: Parts, O: Write, E: Write>(
    parts: &mut P,
    alloc: Global,
    asked: &Asked<'_>,
    output: &mut O,
    errors: &mut E,
) -> Result<u8, Fault>
    ensures { (listing : Listing) × (listed : P)
        × P.lists parts.old asked.now.file.now listing listed
        × RunsKept (part_rules P.lists P.holds P.bars) asked.now listing
        (scene listed (O.contents output.old) (E.contents errors.old)) result
        (scene parts.new (O.contents output.new) (E.contents errors.new)) }
{
    match archive_of(parts, alloc, asked.file) {
        Ok(archive) => {
            if asked.last {
                return find_lasts(parts, alloc, asked, &archive, output, errors);
            }
            print_archive(parts, alloc, asked, &archive, output, errors)
        }
        Err(stop) => tell_alone(alloc, asked.file, stop, errors),
    }
}
