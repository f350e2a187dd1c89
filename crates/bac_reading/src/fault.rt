//! What is wrong with a file, and why a tool ends before its end.

ghost use Rattle.std.specs.Prelude.{◌≡◌, ◌++◌, IfOk, OnOk};
ghost use Rattle.bac_kept.specs.Faults.{EndsText};
ghost use Rattle.bac_parts.specs.Faults.{lines_of};
ghost use Rattle.bac_reading.specs.Fault.{AreTroubleLines, of_uncounted, of_unprinted, stop_of};
ghost use Rattle.bac_reading.specs.Fault.{trouble_status};

use bac_check::{Ending, Uncounted, Unprinted};
use bac_kept::Fault as KeptFault;
use bac_parts::FileFault;
use std::alloc::{AllocError, Global};

/// Why a tool ends before its end.
#[derive(Clone, Copy, Debug)]
pub enum Fault {
    /// Out of memory.
    Memory,
    /// The output refused a write.
    Write,
}

/// What is wrong with a file.
#[derive(Clone, Copy)]
pub enum Trouble {
    /// It is no use.
    File(FileFault),
    /// None of its trend logs is chosen.
    NoLog,
    /// It is an archive, and its check ends so.
    Check(Ending),
}

/// Why a part isn't read to its end.
#[derive(Clone, Copy)]
pub(crate) enum Stop {
    Trouble(Trouble),
    Fault(Fault),
}

/// Appends the lines of a file that is no use, for this reason.
fn push_told(text: &mut Vec<u8>, path: &str, reason: &[u8]) -> Result<(), AllocError>
    ensures { OnOk result (text.new.items ≡ text.old.items ++ lines_of 6 path.now reason.now) }
{
    text.extend_from_slice(b"file fault\n")?;
    text.extend_from_slice(path.as_bytes())?;
    text.extend_from_slice(b": ")?;
    text.extend_from_slice(reason)?;
    text.extend_from_slice(b"\n")
}

impl Trouble {
    /// The exit status: 7 if another program has the file open, else 6.
    pub fn status(self) -> u8
        ensures { result ≡ trouble_status self }
    {
        match self {
            Trouble::File(why) => why.status(),
            Trouble::NoLog => 6,
            Trouble::Check(end) => end.status(),
        }
    }

    /// The lines that tell it of the file with this name.
    pub fn lines(self, alloc: Global, path: &str) -> Result<Vec<u8>, AllocError>
        ensures { IfOk result (λ text. AreTroubleLines self path.now text.items) }
    {
        let mut text = Vec::new(alloc);
        match self {
            Trouble::File(why) => {
                let lines = why.lines(alloc, path)?;
                text.extend_from_slice(lines.as_bytes())?;
            }
            Trouble::NoLog => push_told(&mut text, path, b"it has no such trend log")?,
            Trouble::Check(end) => end.push_lines(&mut text, path)?,
        }
        Ok(text)
    }
}

/// Why a part isn't printed to its end.
pub(crate) fn stop_of(why: KeptFault) -> Stop
    ensures { result ≡ stop_of why }
{
    match why {
        KeptFault::Memory => Stop::Fault(Fault::Memory),
        KeptFault::Write => Stop::Fault(Fault::Write),
        KeptFault::NoLog => Stop::Trouble(Trouble::NoLog),
        KeptFault::Database(error) => Stop::Trouble(Trouble::File(FileFault::Database(error))),
    }
}

/// Why a text isn't printed.
pub(crate) fn text_fault(why: KeptFault) -> Fault
    requires { EndsText why }
    ensures { Stop.Fault result ≡ stop_of why }
{
    match why {
        KeptFault::Memory => Fault::Memory,
        _ => Fault::Write,
    }
}

/// What is wrong with an archive whose rows aren't counted.
pub(crate) fn of_uncounted(why: Uncounted) -> Trouble
    ensures { result ≡ of_uncounted why }
{
    match why {
        Uncounted::Database(error) => Trouble::File(FileFault::Database(error)),
        Uncounted::Memory => Trouble::Check(Ending::Uncounted(Uncounted::Memory)),
        Uncounted::Overlap { epoch, before, row } => {
            Trouble::Check(Ending::Uncounted(Uncounted::Overlap { epoch, before, row }))
        }
        Uncounted::Backward { epoch, row } => {
            Trouble::Check(Ending::Uncounted(Uncounted::Backward { epoch, row }))
        }
    }
}

/// Why what was counted isn't printed.
pub(crate) fn of_unprinted(why: Unprinted) -> Fault
    ensures { result ≡ of_unprinted why }
{
    match why {
        Unprinted::Memory => Fault::Memory,
        Unprinted::Write => Fault::Write,
    }
}
