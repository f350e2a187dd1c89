//! The whole program.

ghost use Rattle.std.specs.Prelude.{◌≡◌, ◌⊎◌, ℕ, List, map, [], None, OnOk, OnErr};
ghost use Rattle.std.specs.Io.KnownBytes.{Appends};
ghost use Rattle.std.specs.String.{string_bytes};
ghost use Rattle.clap.specs.Values.{kind_of};
ghost use Rattle.bac_print.specs.Output.{AppendsPart};
ghost use Rattle.bac_tools.specs.Run.{AnswersWords, AreWrong, AskFor, Explains, IsTold, OnlyTells};
ghost use Rattle.bac_tools.specs.Run.{Runs, RunsRead, Works, wrong_fault};
ghost use Rattle.bac_ports.specs.Sockets.{socket_rules};
ghost use Rattle.bac_tools.specs.Streams.{streams};
ghost use Rattle.bac_command_line.specs.Outcome.{mistakes_of};
ghost use Rattle.bac_command_line.specs.declared.job.Job.{Job as AnyJob};
ghost use Rattle.bac_command_line.specs.declared.word.Word.{Word as AnyWord};

use crate::as_said::{fetch_as_said, list_as_said, read_as_said, write_as_said};
use crate::fault::Fault;
use crate::finding::wi;
use crate::playing::replay;
use crate::serving::serve;
use crate::telling::{say, tell, tell_after};
use crate::tips::with_true_tips;
use bac_command_line::{Job, WordsFault, read_words};
use bac_ports::Sockets;
use bac_print::{WriteRefused, write_text};
use bac_serve::Clock;
use bac_socket_notes::Heeds;
use std::alloc::Global;
use std::io::{Read, Write};

/// Does what a job asks for; answers the exit status. On the errors a server tells that it is up,
/// and `log` of a device that it contradicted itself.
fn work<S: Sockets, I: Read, O: Write, E: Write, C: Clock>(
    sockets: &mut S,
    alloc: Global,
    job: Job,
    input: &mut I,
    output: &mut O,
    errors: &mut E,
    clock: &mut C,
) -> Result<u8, Fault>
    ensures { Works
        (socket_rules S.opens S.closes S.Socket.sends S.Socket.receives S.Socket.receives_within)
        C.tells job (streams (I.remaining input.old) (O.contents output.old) (E.contents errors.old)
        sockets.old clock.old) result
        (streams (I.remaining input.new) (O.contents output.new) (E.contents errors.new) sockets.new
        clock.new) }
{
    match job {
        Job::Replay => replay(alloc, input, output),
        Job::Wi(said) => wi(sockets, alloc, &said, input, output),
        Job::Rp(said) => read_as_said(sockets, alloc, said, output),
        Job::Wp(said) => write_as_said(sockets, said, output),
        Job::Log(said) => fetch_as_said(sockets, alloc, said, output, errors),
        Job::Logs(said) => list_as_said(sockets, alloc, said, output),
        Job::Keep(_keep) => Err(Fault::OtherTool),
        Job::Kept(_kept) => Err(Fault::OtherTool),
        Job::Check(_check) => Err(Fault::OtherTool),
        Job::Serve(said) => serve(
            sockets,
            alloc,
            said.address,
            said.count,
            input,
            errors,
            clock,
        ),
    }
}

/// Writes a text, and flushes the output.
fn show<O: Write>(text: &[u8], output: &mut O) -> Result<(), WriteRefused>
    ensures ok { OnOk result (Appends (O.contents output.old) (O.contents output.new) text.now) }
    ensures err { OnErr result
        (AppendsPart (O.contents output.old) (O.contents output.new) text.now) }
{
    if write_text(output, text).is_err() || output.flush().is_err() {
        return Err(WriteRefused);
    }
    Ok(())
}

/// Says a mistake in the words, with the tips that help.
fn correct<E: Write>(alloc: Global, text: &str, errors: &mut E) -> u8
    ensures { IsTold Fault.Memory (E.contents errors.old) (E.contents errors.new) result
        ⊎ ((result ≡ 1) × ((told : List ℕ)
        × AppendsPart (E.contents errors.old) (E.contents errors.new) told)) }
{
    let Ok(told) = with_true_tips(alloc, text) else {
        return tell(alloc, Fault::Memory, errors);
    };
    say(told.as_bytes(), errors);
    1
}

/// What `clap` says of the words: help and the version on the output, mistakes on the errors.
fn explain<O: Write, E: Write>(
    alloc: Global,
    error: &clap::Error,
    output: &mut O,
    errors: &mut E,
) -> u8
    ensures { OnlyTells Fault.Memory
        (streams None (O.contents output.old) (E.contents errors.old) (tt {0}) (tt {0})) result
        (streams None (O.contents output.new) (E.contents errors.new) (tt {0}) (tt {0}))
        ⊎ Explains (kind_of error.now)
        (streams None (O.contents output.old) (E.contents errors.old) (tt {0}) (tt {0})) result
        (streams None (O.contents output.new) (E.contents errors.new) (tt {0}) (tt {0})) }
{
    let Ok(text) = format!(in alloc; "{error}") else {
        return tell(alloc, Fault::Memory, errors);
    };
    if error.use_stderr() {
        return correct(alloc, text.as_str(), errors);
    }
    if show(text.as_bytes(), output).is_err() {
        return tell(alloc, Fault::Write, errors);
    }
    0
}

/// Does what words ask for as they were read, as [`run`] does: for a program that has other tools
/// too.
pub fn run_read<S: Heeds, I: Read, O: Write, E: Write, C: Clock>(
    sockets: &mut S,
    alloc: Global,
    read: Result<Job, WordsFault>,
    input: &mut I,
    output: &mut O,
    errors: &mut E,
    clock: &mut C,
) -> u8
    ensures { RunsRead
        (socket_rules S.opens S.closes S.Socket.sends S.Socket.receives S.Socket.receives_within)
        S.passes C.tells read (streams (I.remaining input.old) (O.contents output.old)
        (E.contents errors.old) sockets.old clock.old) result
        (streams (I.remaining input.new) (O.contents output.new) (E.contents errors.new) sockets.new
        clock.new) }
{
    let job = match read {
        Ok(job) => job,
        Err(WordsFault::Usage(error)) => return explain(alloc, &error, output, errors),
        Err(WordsFault::BadValue(word)) => return tell(alloc, Fault::BadValue(word), errors),
        Err(WordsFault::LongNumber(word)) => return tell(alloc, Fault::LongNumber(word), errors),
        Err(WordsFault::Memory) => return tell(alloc, Fault::Memory, errors),
    };
    match work(sockets, alloc, job, input, output, errors, clock) {
        Ok(status) => status,
        Err(fault) => tell_after(alloc, sockets.passed(), fault, errors),
    }
}

/// The program `bac` without its files: does what its words ask for, the first of which is its
/// name, and answers the exit status; `keep`, `kept` and `check` are refused as tools of another
/// crate. Results and help go to the output; faults, and the line of a server that is up, go to the
/// errors. Each is one write.
pub fn run<S: Heeds, I: Read, O: Write, E: Write, C: Clock>(
    sockets: &mut S,
    alloc: Global,
    words: &[String],
    input: &mut I,
    output: &mut O,
    errors: &mut E,
    clock: &mut C,
) -> u8
    // The tool that the words name does what they say.
    ensures done { (job : AnyJob) → AskFor (map string_bytes words.now) job
        → Runs (socket_rules S.opens S.closes S.Socket.sends S.Socket.receives
        S.Socket.receives_within) S.passes C.tells job
        (streams (I.remaining input.old) (O.contents output.old) (E.contents errors.old)
        sockets.old clock.old) result
        (streams (I.remaining input.new) (O.contents output.new) (E.contents errors.new)
        sockets.new clock.new) }
    // Of words with a wrong value this is told, and nothing else is done.
    ensures bad_value { (word : AnyWord) → AreWrong (map string_bytes words.now) word
        → OnlyTells (wrong_fault (map string_bytes words.now) word)
        (streams (I.remaining input.old) (O.contents output.old) (E.contents errors.old)
        sockets.old clock.old) result
        (streams (I.remaining input.new) (O.contents output.new) (E.contents errors.new)
        sockets.new clock.new) }
    // Words that ask for help or the version have it on the output, those with a mistake on the
    // errors, and nothing else is done.
    ensures explained { (mistakes_of (map string_bytes words.now) ≡ [] → ⊥)
        → AnswersWords (map string_bytes words.now)
        (streams (I.remaining input.old) (O.contents output.old) (E.contents errors.old)
        sockets.old clock.old) result
        (streams (I.remaining input.new) (O.contents output.new) (E.contents errors.new)
        sockets.new clock.new) }
{
    let read = read_words(alloc, words);
    run_read(sockets, alloc, read, input, output, errors, clock)
}
