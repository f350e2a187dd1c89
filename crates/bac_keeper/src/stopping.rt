//! `bac keep --stop`.

ghost use Rattle.std.specs.Prelude.{◌≡◌};
ghost use Rattle.std.specs.String.{string_bytes};
ghost use Rattle.sqlite_wal.specs.Files.{image_at};
ghost use Rattle.bac_keeper.specs.Stops.{EndsPrinted, EndsStop, StopsBy, StopsNamed};
ghost use Rattle.bac_keeper.specs.Stops.{StopsPlaced, StopsTool, stop_came, stop_done, texts};

use crate::ends::end_halted;
use crate::fault::Fault;
use crate::halts::{Halt, stop_halt};
use crate::lines::stopped_lines;
use crate::places::place_of;
use bac_command_line::Keep;
use bac_files::{DiskFiles, FileOf, NotOpened, Place};
use bac_keep_command_line::read_stop;
use bac_keeping::{StopHalt, Stopped, stop_named};
use bac_parts::{Done, FileFault, Work, work_in};
use bac_plan::Named;
use bac_print::write_text;
use sqlite::{Alter, Connection, Error, Start};
use sqlite_disk::Disk;
use std::alloc::Global;
use std::io::Write;

/// What words name is stopped.
#[derive(Drop)]
struct Stopping {
    alloc: Global,
    named: Vec<Named>,
}

impl Work<(), Result<Stopped, StopHalt>> for Stopping {
    ghost can_work = { λ it none. Unit {0} };

    ghost does = { λ it over none still came. StopsBy it.named.items over came };

    fn work<A: Alter>(
        &self,
        conn: &mut Connection<A>,
        _with: &mut (),
    ) -> Result<Stopped, StopHalt> {
        stop_named(self.alloc, conn, self.named.as_slice())
    }
}

/// What was stopped, if its file was closed.
fn stop_came(came: Result<Stopped, StopHalt>, closed: Result<(), Error>) -> Result<Stopped, Halt>
    ensures { result ≡ stop_came came closed }
{
    match came {
        Ok(stopped) => match closed {
            Ok(()) => Ok(stopped),
            Err(error) => Err(Halt::File(FileFault::Database(error))),
        },
        Err(why) => Err(stop_halt(why)),
    }
}

/// The same of a file that may not be opened.
fn stop_done(done: Result<Done<Result<Stopped, StopHalt>>, NotOpened>) -> Result<Stopped, Halt>
    ensures { result ≡ stop_done done }
{
    match done {
        Ok(Done { came, closed }) => stop_came(came, closed),
        Err(why) => Err(Halt::File(FileFault::Unopened(why))),
    }
}

/// Prints lines, which go out.
fn print<W: Write>(lines: &[u8], output: &mut W) -> Result<u8, Fault>
    ensures { EndsPrinted lines.now (W.contents output.old) (W.contents output.new) result }
{
    match write_text(output, lines) {
        Ok(()) => match output.flush() {
            Ok(()) => Ok(0),
            Err(_) => Err(Fault::Write),
        },
        Err(_) => Err(Fault::Write),
    }
}

/// What was stopped is printed, or the tool halts.
fn end_stop<W: Write, V: Write>(
    alloc: Global,
    came: Result<Stopped, Halt>,
    path: &str,
    output: &mut W,
    errors: &mut V,
) -> Result<u8, Fault>
    ensures { EndsStop came path.now (texts (W.contents output.old) (V.contents errors.old))
        (texts (W.contents output.new) (V.contents errors.new)) result }
{
    match came {
        Ok(stopped) => match stopped_lines(alloc, &stopped) {
            Ok(lines) => print(lines.as_slice(), output),
            Err(_) => Err(Fault::Memory),
        },
        Err(halt) => end_halted(alloc, halt, path, errors),
    }
}

/// What is named is stopped at a place.
fn stop_placed<F: Start, W: Write, V: Write>(
    alloc: Global,
    named: Vec<Named>,
    files: &mut DiskFiles<'_, F>,
    place: &Place,
    output: &mut W,
    errors: &mut V,
) -> Result<u8, Fault>
    ensures { StopsPlaced ⟦<FileOf<F> as Disk>⟧ (image_at F.Start) place.now named.items files.old
        files.new (texts (W.contents output.old) (V.contents errors.old))
        (texts (W.contents output.new) (V.contents errors.new)) result }
{
    let path = place.path.as_str();
    let done = work_in(files, path, &Stopping { alloc, named }, &mut ());
    end_stop(alloc, stop_done(done), path, output, errors)
}

/// What is named is stopped at the place of its archive.
fn stop_all<F: Start, W: Write, V: Write>(
    alloc: Global,
    file: &str,
    wait: u32,
    named: Vec<Named>,
    files: &mut DiskFiles<'_, F>,
    output: &mut W,
    errors: &mut V,
) -> Result<u8, Fault>
    ensures { StopsNamed ⟦<FileOf<F> as Disk>⟧ (image_at F.Start) file.now named.items files.old
        files.new (texts (W.contents output.old) (V.contents errors.old))
        (texts (W.contents output.new) (V.contents errors.new)) result }
{
    match place_of(files, file, false, u64::MAX, wait) {
        Ok(place) => stop_placed(alloc, named, files, &place, output, errors),
        Err(why) => end_halted(alloc, Halt::File(why), file, errors),
    }
}

/// Does what the words of `bac keep --stop` ask for, and answers the exit status. A line for each
/// device and each trend log that is stopped goes to the output; that the archive is no use is told
/// on the errors. Any other fault is the caller's to tell.
pub fn run_stop<F: Start, W: Write, V: Write>(
    alloc: Global,
    keep: &Keep,
    files: &mut DiskFiles<'_, F>,
    output: &mut W,
    errors: &mut V,
) -> Result<u8, Fault>
    ensures { StopsTool ⟦<FileOf<F> as Disk>⟧ (image_at F.Start) keep.now files.old files.new
        (texts (W.contents output.old) (V.contents errors.old))
        (texts (W.contents output.new) (V.contents errors.new)) result }
{
    match read_stop(alloc, keep) {
        Ok(named) => stop_all(
            alloc,
            keep.file.as_str(),
            keep.wait,
            named,
            files,
            output,
            errors,
        ),
        Err(fault) => Err(Fault::of_words(fault)),
    }
}
