//! What is told of the files of an archive that are read.

ghost use Rattle.std.specs.Prelude.{◌≡◌, [], None, option_copied};
ghost use Rattle.bac_print.specs.Output.{AppendsPart};
ghost use Rattle.bac_reading.specs.Report.{Closes, Ends, IsBlank, Settles, Tells, came_to};
ghost use Rattle.bac_reading.specs.Report.{chooses_all, goes_on, is_newest, is_spared};
ghost use Rattle.bac_reading.specs.Scene.{TellsAlone};

use crate::fault::{Fault, Stop, Trouble};
use bac_files::NotOpened;
use bac_kept::Choice;
use bac_parts::FileFault;
use bac_print::write_text;
use sqlite::Error;
use std::alloc::Global;
use std::io::Write;

/// What is told of the files of an archive that are read, one after the other.
#[derive(Drop)]
pub(crate) struct Report<'a> {
    alloc: Global,
    /// The newest part of a folder, which may have nothing: a run was ended that began it.
    newest: Option<&'a str>,
    /// The lines for the errors.
    text: Vec<u8>,
    /// The greatest status of what is told.
    status: u8,
    /// Why nothing more is read.
    fault: Option<Fault>,
}

/// Whether each log is chosen.
fn chooses_all(choice: Choice<'_>) -> bool
    ensures { result ≡ chooses_all choice.entry }
{
    match choice {
        Choice::All => true,
        Choice::Device(_) | Choice::Log(_, _) => false,
    }
}

/// What came of a part: what came of its read, unless it isn't opened, or couldn't be closed behind
/// a read that went well.
fn came_to(read: Result<(), Stop>, came: Result<Result<(), Error>, NotOpened>) -> Result<(), Stop>
    ensures { result ≡ came_to read came }
{
    match came {
        Ok(Ok(())) => read,
        Ok(Err(error)) => match read {
            Ok(()) => Err(Stop::Trouble(Trouble::File(FileFault::Database(error)))),
            Err(stop) => Err(stop),
        },
        Err(why) => Err(Stop::Trouble(Trouble::File(FileFault::Unopened(why)))),
    }
}

/// Writes a text; if that is refused there is nowhere to tell it.
fn say<E: Write>(text: &[u8], errors: &mut E)
    ensures { AppendsPart (E.contents errors.old) (E.contents errors.new) text.now }
{
    let _refused = write_text(errors, text);
}

impl<'a> Report<'a> {
    /// Nothing is told yet.
    pub(crate) fn new(alloc: Global, newest: Option<&'a str>) -> Report<'a>
        ensures { IsBlank (option_copied newest.entry) result }
    {
        Report {
            alloc,
            newest,
            text: Vec::new(alloc),
            status: 0,
            fault: None,
        }
    }

    /// Whether one more part may be read.
    pub(crate) fn goes_on(&self) -> bool
        ensures { result ≡ goes_on self.now }
    {
        self.fault.is_none()
    }

    /// Whether a part is the newest of a folder.
    fn is_newest(&self, path: &str) -> bool
        ensures { result ≡ is_newest self.now path.now }
    {
        match self.newest {
            Some(newest) => newest == path,
            None => false,
        }
    }

    /// Whether this isn't told of a part: that there is nothing in it, of the newest.
    fn is_spared(&self, path: &str, trouble: Trouble) -> bool
        ensures { result ≡ is_spared self.now path.now trouble }
    {
        match trouble {
            Trouble::File(FileFault::Unopened(NotOpened::Empty)) => self.is_newest(path),
            _ => false,
        }
    }

    /// Tells what is wrong with a file.
    pub(crate) fn tell(&mut self, path: &str, trouble: Trouble)
        ensures { Tells path.now trouble self.old self.new }
    {
        let told = match trouble.lines(self.alloc, path) {
            Ok(lines) => self.text.extend_from_slice(lines.as_slice()),
            Err(error) => Err(error),
        };
        match told {
            Ok(()) => self.status = self.status.max(trouble.status()),
            Err(_) => self.fault = Some(Fault::Memory),
        }
    }

    /// Takes what came of a part.
    pub(crate) fn end(
        &mut self,
        path: &str,
        read: Result<(), Stop>,
        came: Result<Result<(), Error>, NotOpened>,
    )
        ensures { Ends path.now (came_to read came) self.old self.new }
    {
        match came_to(read, came) {
            Ok(()) => {}
            Err(Stop::Trouble(trouble)) => {
                if !self.is_spared(path, trouble) {
                    self.tell(path, trouble);
                }
            }
            Err(Stop::Fault(fault)) => self.stop(fault),
        }
    }

    /// A fault ends the tool.
    pub(crate) fn stop(&mut self, fault: Fault)
        ensures { self.new ≡ record self.old { fault = Some fault } }
    {
        self.fault = Some(fault);
    }

    /// All parts are read, and what was printed, of some log or of none, is out, or it isn't. Where
    /// nothing else is told, it is that no log was chosen.
    pub(crate) fn settle(&mut self, name: &str, choice: Choice<'_>, printed: Result<bool, Fault>)
        ensures { Settles name.now choice.entry printed self.old self.new }
    {
        match printed {
            Ok(any) => {
                if self.status == 0 && !any && !chooses_all(choice) {
                    self.tell(name, Trouble::NoLog);
                }
            }
            Err(fault) => self.stop(fault),
        }
    }

    /// What is told goes to the errors. Answers the status, or why the tool ends before its end.
    pub(crate) fn close<E: Write>(&self, errors: &mut E) -> Result<u8, Fault>
        ensures { Closes self.now (E.contents errors.old) (E.contents errors.new) result }
    {
        if self.status != 0 {
            say(self.text.as_slice(), errors);
        }
        match self.fault {
            Some(fault) => Err(fault),
            None => Ok(self.status),
        }
    }
}

/// Tells of the archive of this name alone why none of its parts is read.
pub(crate) fn tell_alone<E: Write>(
    alloc: Global,
    name: &str,
    why: Stop,
    errors: &mut E,
) -> Result<u8, Fault>
    ensures { TellsAlone name.now why (E.contents errors.old) (E.contents errors.new) result }
{
    let mut report = Report::new(alloc, None);
    report.end(name, Err(why), Ok(Ok(())));
    report.close(errors)
}
