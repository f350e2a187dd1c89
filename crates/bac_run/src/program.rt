//! All tools of the program.

ghost use Rattle.std.specs.Prelude.{◌≡◌, [], map};
ghost use Rattle.std.specs.String.{string_bytes};
ghost use Rattle.sqlite_wal.specs.Files.{image_at};
ghost use Rattle.bac_files.specs.Parts.{part_rules};
ghost use Rattle.bac_historian.specs.Files.{KeepsPart};
ghost use Rattle.bac_historian.specs.Laws.{LosesNothingAt};
ghost use Rattle.bac_ports.specs.Sockets.{socket_rules};
ghost use Rattle.bac_site_poller.specs.SiteLaws.{site_acts};
ghost use Rattle.bac_tools.specs.Run.{AnswersWords, AreWrong, AskFor, OnlyTells, wrong_fault};
ghost use Rattle.bac_command_line.specs.Outcome.{mistakes_of};
ghost use Rattle.bac_command_line.specs.declared.job.Job.{Job as AnyJob};
ghost use Rattle.bac_command_line.specs.declared.word.Word.{Word as AnyWord};
ghost use Rattle.bac_run.specs.Run.{AskToKeep, DoesAll, DoesTold, RunsAll};
ghost use Rattle.bac_run.specs.Setup.{IsOffFiles, setup};

use crate::keeping::keep_job;
use crate::machine::{Console, Machine};
use crate::reading::{check_job, print_and_tell};
use bac_command_line::{Job, read_words};
use bac_drive::Clock as WaitClock;
use bac_files::{FileOf, Parts};
use bac_keeper::{stop_loses_nothing, tool_loses_nothing};
use bac_tools::{Clock, run_read};
use bac_trace::Tracing;
use sqlite::Start;
use sqlite_disk::Disk;
use std::alloc::Global;
use std::io::{Read, Write};

/// Does what a job asks for, and answers the exit status.
fn run_job<
    S: Tracing,
    F: Start,
    G: Start,
    Q: Parts,
    I: Read,
    O: Write,
    E: Write,
    C: Clock,
    W: WaitClock + Copy,
>(
    machine: &mut Machine<'_, S, F, G, Q, C>,
    console: &mut Console<I, O, E>,
    alloc: Global,
    waits: W,
    job: Job,
) -> u8
    ensures ran { DoesAll (socket_rules S.opens S.closes S.Socket.sends S.Socket.receives
        S.Socket.receives_within) (site_acts S.Socket.sends S.Socket.receives_within W.reads)
        ⟦<FileOf<F> as Disk>⟧ (image_at F.Start) ⟦<FileOf<G> as Disk>⟧ (image_at G.Start)
        (part_rules Q.lists Q.holds Q.bars) S.passes C.tells waits job
        (setup I.remaining O.contents E.contents machine.old console.old) result
        (setup I.remaining O.contents E.contents machine.new console.new) }
    ensures part { KeepsPart ⟦<FileOf<G> as Disk>⟧ (image_at G.Start) machine.old.parts
        machine.new.parts }
{
    match job {
        Job::Keep(asked) => keep_job(machine, console, alloc, waits, asked),
        Job::Kept(asked) => print_and_tell(
            &mut machine.folders,
            alloc,
            &asked,
            &mut console.output,
            &mut console.errors,
        ),
        Job::Check(asked) => check_job(
            &mut machine.folders,
            alloc,
            &asked,
            &mut console.output,
            &mut console.errors,
        ),
        other => run_read(
            &mut machine.sockets,
            alloc,
            Ok(other),
            &mut console.input,
            &mut console.output,
            &mut console.errors,
            &mut machine.clock,
        ),
    }
}

/// The same over sockets that tell each datagram, if the words ask for it.
fn run_told<
    S: Tracing,
    F: Start,
    G: Start,
    Q: Parts,
    I: Read,
    O: Write,
    E: Write,
    C: Clock,
    W: WaitClock + Copy,
>(
    machine: &mut Machine<'_, S, F, G, Q, C>,
    console: &mut Console<I, O, E>,
    alloc: Global,
    waits: W,
    job: Job,
) -> u8
    ensures ran { DoesTold (socket_rules S.opens S.closes S.Socket.sends S.Socket.receives
        S.Socket.receives_within) (site_acts S.Socket.sends S.Socket.receives_within W.reads)
        ⟦<FileOf<F> as Disk>⟧ (image_at F.Start) ⟦<FileOf<G> as Disk>⟧ (image_at G.Start)
        (part_rules Q.lists Q.holds Q.bars) S.passes C.tells waits S.traces job
        (setup I.remaining O.contents E.contents machine.old console.old) result
        (setup I.remaining O.contents E.contents machine.new console.new) }
    ensures part { KeepsPart ⟦<FileOf<G> as Disk>⟧ (image_at G.Start) machine.old.parts
        machine.new.parts }
{
    machine.sockets.trace(job.is_traced());
    run_job(machine, console, alloc, waits, job)
}

/// The program `bac`: does what its words ask for, the first of which is its name, and answers the
/// exit status. Results and help go to the output; faults, and the line of a server that is up, go
/// to the errors. `waits` is the clock by which `keep` waits for devices that it polls.
pub fn run<
    S: Tracing,
    F: Start,
    G: Start,
    Q: Parts,
    I: Read,
    O: Write,
    E: Write,
    C: Clock,
    W: WaitClock + Copy,
>(
    machine: &mut Machine<'_, S, F, G, Q, C>,
    console: &mut Console<I, O, E>,
    alloc: Global,
    waits: W,
    words: &[String],
) -> u8
    // The tool that the words name does what they say.
    ensures done { (job : AnyJob) → AskFor (map string_bytes words.now) job
        → RunsAll (socket_rules S.opens S.closes S.Socket.sends S.Socket.receives
        S.Socket.receives_within) (site_acts S.Socket.sends S.Socket.receives_within W.reads)
        ⟦<FileOf<F> as Disk>⟧ (image_at F.Start) ⟦<FileOf<G> as Disk>⟧ (image_at G.Start)
        (part_rules Q.lists Q.holds Q.bars) S.passes C.tells waits S.traces job
        (setup I.remaining O.contents E.contents machine.old console.old) result
        (setup I.remaining O.contents E.contents machine.new console.new) }
    // Whatever comes of it, nothing is lost of an archive that the files held, and another database
    // is left as it was.
    ensures stays { LosesNothingAt ⟦<FileOf<F> as Disk>⟧ (image_at F.Start) machine.old.files
        machine.new.files }
    // And the part before it, if one is begun, is only read.
    ensures part { KeepsPart ⟦<FileOf<G> as Disk>⟧ (image_at G.Start) machine.old.parts
        machine.new.parts }
    // That part is for `keep` alone: no other words open it.
    ensures beside { (AskToKeep (map string_bytes words.now) → ⊥)
        → machine.new.parts ≡ machine.old.parts }
    // Of words with a wrong value this is told, and nothing else is done.
    ensures bad_value { (word : AnyWord) → AreWrong (map string_bytes words.now) word
        → IsOffFiles (setup I.remaining O.contents E.contents machine.old console.old)
        (setup I.remaining O.contents E.contents machine.new console.new)
        × OnlyTells (wrong_fault (map string_bytes words.now) word)
        (setup I.remaining O.contents E.contents machine.old console.old).streams result
        (setup I.remaining O.contents E.contents machine.new console.new).streams }
    // Words that ask for help or the version have it on the output, those with a mistake on the
    // errors, and nothing else is done.
    ensures explained { (mistakes_of (map string_bytes words.now) ≡ [] → ⊥)
        → IsOffFiles (setup I.remaining O.contents E.contents machine.old console.old)
        (setup I.remaining O.contents E.contents machine.new console.new)
        × AnswersWords (map string_bytes words.now)
        (setup I.remaining O.contents E.contents machine.old console.old).streams result
        (setup I.remaining O.contents E.contents machine.new console.new).streams }
{
    tool_loses_nothing::<F, G, S, W>();
    stop_loses_nothing::<F>();
    match read_words(alloc, words) {
        Ok(job) => run_told(machine, console, alloc, waits, job),
        Err(fault) => run_read(
            &mut machine.sockets,
            alloc,
            Err(fault),
            &mut console.input,
            &mut console.output,
            &mut console.errors,
            &mut machine.clock,
        ),
    }
}
