//! From words to a job.

ghost use Rattle.std.specs.Prelude.{◌≡◌, IfOk, IfErr, [], map, Ok, true, false};
ghost use Rattle.std.specs.String.{string_bytes};
ghost use Rattle.clap.specs.Words.{rows_of, found_of, subcommand_rows_of};
ghost use Rattle.bac_command_line.specs.Steps.{Makes};
ghost use Rattle.bac_command_line.specs.Jobs.{job_of_tool, job_of};
ghost use Rattle.bac_command_line.specs.Outcome.{mistakes_of, is_long_of, job_in, Answers};
ghost use Rattle.bac_command_line.specs.Outcome.{IsRefused};

use crate::commands::command;
use crate::fault::WordsFault;
use crate::job::Job;
use crate::keeping::{check, keep, kept};
use crate::rows::is_long_at;
use crate::tools::{log, logs, rp, serve, wi, wp};
use crate::word::Word;
use clap::ArgMatches;
use clap::error::ErrorKind;
use std::alloc::Global;

/// The job that the words ask for; the first of them is the program's name. If they are a
/// mistake, or ask for help, it is `clap`'s error; a value that its word or option can't have is a
/// bad value, or a long number.
pub fn read_words(alloc: Global, words: &[String]) -> Result<Job, WordsFault>
    ensures ok { IfOk result (λ job. (mistakes_of (map string_bytes words.now) ≡ [])
        × (job_in (map string_bytes words.now) ≡ Ok job)) }
    ensures err { IfErr result (IsRefused (map string_bytes words.now)) }
{
    let command = command(alloc)?;
    match command.try_get_matches_from(words) {
        Ok(matches) => answer(alloc, &matches),
        Err(error) if error.kind() == ErrorKind::OutOfMemory => Err(WordsFault::Memory),
        Err(error) => Err(WordsFault::Usage(error)),
    }
}

/// The job of the tool that was named; or the first wrong word, and whether it is a number with too
/// many digits.
fn answer(alloc: Global, matches: &ArgMatches) -> Result<Job, WordsFault>
    ensures { Answers (subcommand_rows_of matches.now) result }
{
    match job(alloc, matches) {
        Err(WordsFault::BadValue(word)) => Err(wrong(matches, word)),
        answer => answer,
    }
}

/// A word is wrong.
fn wrong(matches: &ArgMatches, word: Word) -> WordsFault
    ensures long { is_long_of word (subcommand_rows_of matches.now) ≡ true
        → result ≡ WordsFault.LongNumber word }
    ensures other { is_long_of word (subcommand_rows_of matches.now) ≡ false
        → result ≡ WordsFault.BadValue word }
{
    match matches.subcommand() {
        Some((_, matches)) if is_long_at(matches, word) => WordsFault::LongNumber(word),
        _ => WordsFault::BadValue(word),
    }
}

/// The job of the tool that was named.
fn job(alloc: Global, matches: &ArgMatches) -> Result<Job, WordsFault>
    ensures { Makes (job_of (subcommand_rows_of matches.now)) result }
{
    match matches.subcommand() {
        Some((tool, matches)) => job_of_tool(alloc, tool, matches),
        None => Err(WordsFault::BadValue(Word::Tool)),
    }
}

/// A job that takes no memory to make.
fn made(job: Result<Job, Word>) -> Result<Job, WordsFault>
    ensures { Makes job result }
{
    Ok(job?)
}

fn job_of_tool(alloc: Global, tool: &str, matches: &ArgMatches) -> Result<Job, WordsFault>
    ensures { Makes (job_of_tool tool.now (rows_of (found_of matches.now))) result }
{
    match tool {
        "replay" => Ok(Job::Replay),
        "wi" => wi(alloc, matches),
        "rp" => made(rp(matches)),
        "wp" => wp(alloc, matches),
        "log" => made(log(matches)),
        "logs" => logs(alloc, matches),
        "keep" => keep(alloc, matches),
        "kept" => kept(alloc, matches),
        "check" => check(alloc, matches),
        "serve" => made(serve(matches)),
        _ => Err(WordsFault::BadValue(Word::Tool)),
    }
}
