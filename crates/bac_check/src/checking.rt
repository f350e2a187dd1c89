//! `bac check` of an archive: the numbers of each epoch of each log are counted, and it is told
//! which are missing.

ghost use Rattle.std.specs.Prelude.{◌≡◌, ◌⊎◌, ◌++◌, IfErr, IfOk, OnOk};
ghost use Rattle.std.specs.Io.KnownBytes.{Appends};
ghost use Rattle.sqlite.specs.State.{HasCleanDisk};
ghost use Rattle.sqlite.specs.Held.{state};
ghost use Rattle.bac_archive.specs.Schema.{OverArchive};
ghost use Rattle.bac_check.specs.Checked.{EndsCheck, IsUnprinted, ending_head, ending_of};
ghost use Rattle.bac_check.specs.Checked.{ending_reason, ending_status, ending_text, told_text};
ghost use Rattle.bac_check.specs.Lines.{check_text, has_all};
ghost use Rattle.bac_print.specs.Output.{AppendsPart};

use crate::counts::Counts;
use crate::lines::push_all;
use crate::tally::Uncounted;
use bac_print::write_text;
use sqlite::{Alter, Connection, Error, ErrorCode};
use std::alloc::{AllocError, Global};
use std::io::Write;

/// How a check ends.
#[derive(Clone, Copy)]
pub enum Ending {
    /// Each number is there.
    Whole,
    /// Numbers are missing, or epochs.
    Missing,
    /// A part doesn't go on where the one before it ends.
    Apart,
    /// The rows aren't counted.
    Uncounted(Uncounted),
}

/// Why what was counted isn't printed.
#[derive(Clone, Copy)]
pub enum Unprinted {
    /// The output refused a write.
    Write,
    /// Out of memory.
    Memory,
}

impl Ending {
    /// The exit status.
    pub fn status(self) -> u8
        ensures { result ≡ ending_status self }
    {
        match self {
            Ending::Whole => 0,
            Ending::Missing => 6,
            Ending::Apart => 6,
            Ending::Uncounted(Uncounted::Database(Error::SqliteFailure(code))) => match code {
                ErrorCode::DatabaseBusy => 7,
                _ => 6,
            },
            Ending::Uncounted(_) => 6,
        }
    }

    fn head(self) -> &'static [u8]
        ensures { result.now ≡ ending_head self }
    {
        match self {
            Ending::Uncounted(Uncounted::Database(Error::SqliteFailure(code))) => match code {
                ErrorCode::DatabaseBusy => b"file in use\n",
                _ => b"file fault\n",
            },
            _ => b"file fault\n",
        }
    }

    fn reason(self) -> &'static [u8]
        ensures { result.now ≡ ending_reason self }
    {
        match self {
            Ending::Whole => b"",
            Ending::Missing => b"numbers are missing in it",
            Ending::Apart => b"it doesn't begin where the part before it ends",
            Ending::Uncounted(Uncounted::Overlap { .. }) => b"some of its records overlap",
            Ending::Uncounted(Uncounted::Backward { .. }) => b"some of its records overlap",
            Ending::Uncounted(Uncounted::Memory) => b"out of memory",
            Ending::Uncounted(Uncounted::Database(Error::SqliteFailure(code))) => match code {
                ErrorCode::DatabaseBusy => b"another program has it open",
                _ => b"the database failed",
            },
            Ending::Uncounted(Uncounted::Database(_)) => b"the database failed",
        }
    }

    /// The last lines of a check of the file at a path, if there is anything to tell.
    #[tactic(auto, unfolding(crate::specs::Checked::ending_text))]
    pub fn push_lines(self, text: &mut Vec<u8>, path: &str) -> Result<(), AllocError>
        ensures { OnOk result (text.new.items ≡ text.old.items ++ told_text path.now self) }
    {
        if self.status() == 0 {
            return Ok(());
        }
        text.extend_from_slice(self.head())?;
        text.extend_from_slice(path.as_bytes())?;
        text.extend_from_slice(b": ")?;
        text.extend_from_slice(self.reason())?;
        text.extend_from_slice(b"\n")
    }
}

/// Prints what was counted; answers whether nothing is missing.
pub fn print<O: Write>(alloc: Global, counts: &Counts, output: &mut O) -> Result<bool, Unprinted>
    ensures printed { OnOk result
        (Appends (O.contents output.old) (O.contents output.new) (check_text counts.now)) }
    ensures whole { IfOk result (λ whole. whole ≡ has_all counts.now) }
    ensures refused { IfErr result (λ fault. ((fault ≡ Unprinted.Memory)
        × (O.contents output.new ≡ O.contents output.old)) ⊎ ((fault ≡ Unprinted.Write)
        × AppendsPart (O.contents output.old) (O.contents output.new) (check_text counts.now))) }
{
    let mut text = Vec::new(alloc);
    let Ok(whole) = push_all(alloc, &mut text, counts) else {
        return Err(Unprinted::Memory);
    };
    if write_text(output, text.as_slice()).is_err() {
        return Err(Unprinted::Write);
    }
    match output.flush() {
        Ok(()) => Ok(whole),
        Err(_) => Err(Unprinted::Write),
    }
}

/// How it ends where the rows are counted.
fn ending_of(whole: bool) -> Ending
    ensures { result ≡ ending_of whole }
{
    if whole {
        return Ending::Whole;
    }
    Ending::Missing
}

/// Checks the archive of a connection: counts the numbers of each epoch of each log, and prints
/// them and which are missing. It only reads; where the rows aren't counted nothing is printed.
pub fn check<A: Alter, O: Write>(
    alloc: Global,
    conn: &mut Connection<A>,
    output: &mut O,
) -> Result<Ending, Unprinted>
    ensures checks { OverArchive (state A.Store conn.old) (state A.Store conn.new)
        (IfOk result (λ end. EndsCheck A.Store conn.old (O.contents output.old) end conn.new
        (O.contents output.new))) }
    ensures refused { OverArchive (state A.Store conn.old) (state A.Store conn.new)
        (IfErr result (λ fault. IsUnprinted A.Store conn.old (O.contents output.old) fault
        conn.new (O.contents output.new))) }
    ensures clean { HasCleanDisk (state A.Store conn.new) → HasCleanDisk (state A.Store conn.old) }
{
    let mut counts = Counts::new(alloc);
    match counts.count(alloc, conn) {
        Ok(_) => {
            let whole = print(alloc, &counts, output)?;
            Ok(ending_of(whole))
        }
        Err(why) => Ok(Ending::Uncounted(why)),
    }
}
