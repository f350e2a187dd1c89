//! Runs of `keep`, `kept` and `check`, and of words with a mistake, and what their status, their
//! sockets and their files tell.

ghost use Rattle.std.specs.Prelude.{◌≡◌, ◌≢◌, [], false, map, true};
ghost use Rattle.std.specs.Io.KnownBytes.{Keeps};
ghost use Rattle.std.specs.String.{string_bytes};
ghost use Rattle.sqlite_wal.specs.Files.{image_at};
ghost use Rattle.bac_historian.specs.Files.{KeepsPart};
ghost use Rattle.bac_historian.specs.Laws.{LosesNothingAt};
ghost use Rattle.bac_ports.specs.Sockets.{socket_rules};
ghost use Rattle.bac_run.specs.Setup.{DoesQuietly, IsPrinted, setup, with_sockets};
ghost use Rattle.bac_print.specs.Output.{Held};
ghost use Rattle.bac_site_poller.specs.SiteLaws.{site_acts};
ghost use Rattle.bac_tools.specs.Run.{AreWrong, AskFor};
ghost use Rattle.bac_command_line.specs.Jobs.{reads_input};
ghost use Rattle.bac_command_line.specs.Outcome.{mistakes_of};
ghost use Rattle.bac_command_line.specs.declared.job.Check.{Check as CheckWords};
ghost use Rattle.bac_command_line.specs.declared.job.Job.TheVariants as job;
ghost use Rattle.bac_command_line.specs.declared.job.Keep.{Keep as KeepWords};
ghost use Rattle.bac_command_line.specs.declared.job.Kept.{Kept as KeptWords};
ghost use Rattle.bac_command_line.specs.declared.word.Word.{Word as AnyWord};
ghost use Rattle.bac_run_tests.specs.Apart.{OnlyWrites, ReadsOffline, StopsOffline};
ghost use Rattle.bac_run_tests.specs.Done.{HasDevices, IsKeptNow};
ghost use Rattle.bac_run_tests.specs.Stopped.{IsAllStopped};

use bac_batch::{Batching, ends_whole, steps_happen};
use bac_drive::Clock as WaitClock;
use bac_files::FileOf;
use bac_keeping::keep_names;
use bac_run::{Console, Machine, Parts, run};
use bac_site_poller::{SitePoller, batches_end, ends_are_counted, status_never_falls};
use bac_tools::Clock;
use bac_trace::Tracing;
use sqlite::Start;
use sqlite_disk::Disk;
use std::alloc::Global;
use std::io::{Read, Write};

/// The program with the words of `keep`. Where it ends with 0, each device that the words name, or
/// the input lists, is on record in the archive of the closed files, and each device on record that
/// isn't stopped was heard to the end over one port.
pub fn keep_until_done<
    S: Tracing,
    F: Start,
    G: Start,
    Q: Parts,
    I: Read,
    O: Write,
    E: Write,
    C: Clock,
    W: WaitClock + Copy,
>(
    machine: &mut Machine<'_, S, F, G, Q, C>,
    console: &mut Console<I, O, E>,
    alloc: Global,
    waits: W,
    words: &[String],
) -> u8
    ensures { (asked : KeepWords) → AskFor (map string_bytes words.now) (job.Keep asked)
        → asked.stop ≡ false → result ≡ 0
        → (told : S) × S.traces machine.old.sockets asked.trace told
        × (which : KeepWords) × HasDevices (reads_input asked) asked
        (I.remaining console.old.input) (I.remaining console.new.input) which
        × DoesQuietly asked.quiet (λ before status after. IsKeptNow (socket_rules S.opens S.closes
        S.Socket.sends S.Socket.receives S.Socket.receives_within)
        (site_acts S.Socket.sends S.Socket.receives_within W.reads)
        ⟦<FileOf<F> as Disk>⟧ (image_at F.Start) ⟦<FileOf<G> as Disk>⟧ (image_at G.Start) waits
        C.tells which before after)
        (with_sockets told (setup I.remaining O.contents E.contents machine.old console.old))
        result (setup I.remaining O.contents E.contents machine.new console.new) }
{
    steps_happen::<Batching<SitePoller>, S::Socket, W>();
    ends_whole::<SitePoller>();
    batches_end();
    status_never_falls();
    ends_are_counted();
    keep_names();
    run(machine, console, alloc, waits, words)
}

/// The program with whatever words, as those of `keep`, and then with those of `check` over the
/// same files. Whatever comes of both, of an archive that the files held nothing is lost, and the
/// part before it is as it was.
pub fn keep_and_check<
    S: Tracing,
    F: Start,
    G: Start,
    Q: Parts,
    I: Read,
    O: Write,
    E: Write,
    C: Clock,
    W: WaitClock + Copy,
>(
    machine: &mut Machine<'_, S, F, G, Q, C>,
    console: &mut Console<I, O, E>,
    alloc: Global,
    waits: W,
    keeping: &[String],
    checking: &[String],
) -> (u8, u8)
    ensures { (asked : CheckWords) → AskFor (map string_bytes checking.now) (job.Check asked)
        → LosesNothingAt ⟦<FileOf<F> as Disk>⟧ (image_at F.Start) machine.old.files
        machine.new.files
        × KeepsPart ⟦<FileOf<G> as Disk>⟧ (image_at G.Start) machine.old.parts machine.new.parts }
{
    let kept = run(machine, console, alloc, waits, keeping);
    let checked = run(machine, console, alloc, waits, checking);
    (kept, checked)
}

/// The program with the words of `keep --stop`. It opens no socket, and no file but that of the
/// archive. Where it ends with 0, what they name was on record, and is stopped in the archive of
/// the closed files; a line is printed for each row of that, unless they ask for quiet.
pub fn stop_until_done<
    S: Tracing,
    F: Start,
    G: Start,
    Q: Parts,
    I: Read,
    O: Write,
    E: Write,
    C: Clock,
    W: WaitClock + Copy,
>(
    machine: &mut Machine<'_, S, F, G, Q, C>,
    console: &mut Console<I, O, E>,
    alloc: Global,
    waits: W,
    words: &[String],
) -> u8
    ensures apart { (asked : KeepWords) → AskFor (map string_bytes words.now) (job.Keep asked)
        → asked.stop ≡ true → StopsOffline S.traces asked.trace
        (setup I.remaining O.contents E.contents machine.old console.old)
        (setup I.remaining O.contents E.contents machine.new console.new) }
    ensures done { (asked : KeepWords) → AskFor (map string_bytes words.now) (job.Keep asked)
        → asked.stop ≡ true → result ≡ 0
        → (before : Held) × (after : Held) × IsPrinted asked.quiet (O.contents console.old.output)
        (O.contents console.new.output) before after
        × IsAllStopped ⟦<FileOf<F> as Disk>⟧ (image_at F.Start) asked machine.new.files before after
        × Keeps (E.contents console.old.errors) (E.contents console.new.errors) }
{
    run(machine, console, alloc, waits, words)
}

/// The program with the words of `kept`. It opens no socket, and leaves the files alone that `keep`
/// writes. Where it ends with 0, nothing is told on the errors.
pub fn print_kept<
    S: Tracing,
    F: Start,
    G: Start,
    Q: Parts,
    I: Read,
    O: Write,
    E: Write,
    C: Clock,
    W: WaitClock + Copy,
>(
    machine: &mut Machine<'_, S, F, G, Q, C>,
    console: &mut Console<I, O, E>,
    alloc: Global,
    waits: W,
    words: &[String],
) -> u8
    ensures apart { (asked : KeptWords) → AskFor (map string_bytes words.now) (job.Kept asked)
        → ReadsOffline S.traces (setup I.remaining O.contents E.contents machine.old console.old)
        (setup I.remaining O.contents E.contents machine.new console.new) }
    ensures quiet { (asked : KeptWords) → AskFor (map string_bytes words.now) (job.Kept asked)
        → result ≡ 0 → Keeps (E.contents console.old.errors) (E.contents console.new.errors) }
{
    run(machine, console, alloc, waits, words)
}

/// The same with the words of `check`.
pub fn check_archive<
    S: Tracing,
    F: Start,
    G: Start,
    Q: Parts,
    I: Read,
    O: Write,
    E: Write,
    C: Clock,
    W: WaitClock + Copy,
>(
    machine: &mut Machine<'_, S, F, G, Q, C>,
    console: &mut Console<I, O, E>,
    alloc: Global,
    waits: W,
    words: &[String],
) -> u8
    ensures apart { (asked : CheckWords) → AskFor (map string_bytes words.now) (job.Check asked)
        → ReadsOffline S.traces (setup I.remaining O.contents E.contents machine.old console.old)
        (setup I.remaining O.contents E.contents machine.new console.new) }
    ensures quiet { (asked : CheckWords) → AskFor (map string_bytes words.now) (job.Check asked)
        → result ≡ 0 → Keeps (E.contents console.old.errors) (E.contents console.new.errors) }
{
    run(machine, console, alloc, waits, words)
}

/// The program with words that ask for no tool: they have a mistake, or ask for help or the
/// version; or a word has a value that it can't have. Nothing is read, opened or touched. A wrong
/// value is an error, and nothing is printed.
pub fn answer_words<
    S: Tracing,
    F: Start,
    G: Start,
    Q: Parts,
    I: Read,
    O: Write,
    E: Write,
    C: Clock,
    W: WaitClock + Copy,
>(
    machine: &mut Machine<'_, S, F, G, Q, C>,
    console: &mut Console<I, O, E>,
    alloc: Global,
    waits: W,
    words: &[String],
) -> u8
    ensures mistaken { (mistakes_of (map string_bytes words.now) ≡ [] → ⊥)
        → OnlyWrites (setup I.remaining O.contents E.contents machine.old console.old)
        (setup I.remaining O.contents E.contents machine.new console.new) }
    ensures wrong { (word : AnyWord) → AreWrong (map string_bytes words.now) word
        → OnlyWrites (setup I.remaining O.contents E.contents machine.old console.old)
        (setup I.remaining O.contents E.contents machine.new console.new)
        × (result ≢ 0) × Keeps (O.contents console.old.output) (O.contents console.new.output) }
{
    run(machine, console, alloc, waits, words)
}
