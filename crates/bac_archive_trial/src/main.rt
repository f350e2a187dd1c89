//! Answers lines about archives of format 3, so that the tests of bac_archive over files are rows
//! of data: what is put into a file, what it tells then, which files are refused, and what a kill
//! at each call on a file leaves.
//!
//! Lines of rows (`device`, `log`, `beginning`, `record`, `gap`, and in place of a row `as-device`,
//! `as-log`, `lowered`) make a batch; `put FILE` puts it. Behind each answer stands whether the
//! file is as it was, octet by octet. Lines that begin with # are printed as they are.
//!
//! Only safety is proved here: what each call does is proved in bac_archive.
#![tactic(auto)]

ghost use Rattle.std.specs.Prelude.{OnOk};
ghost use Rattle.sqlite.specs.Held.{state};
ghost use Rattle.sqlite.specs.State.{HasCleanDisk};
ghost use Rattle.bac_archive.specs.Schema.{HasArchive};

mod files;
mod jobs;
mod kills;
mod rows;
mod text;
mod why;
mod words;

use crate::files::{cut, do_in, is_same, timed, timed_each};
use crate::jobs::Job;
use crate::kills::{End, each};
use crate::rows::row_of;
use crate::why::Why;
use crate::words::{maybe, number, word};
use bac_archive::{Put, Range};
use std::alloc::Global;
use std::io;
use std::io::{BufRead, BufReader, BufWriter, Write};
use std::str::SplitWhitespace;

/// The batch of the lines so far, the one before it, and those that are put in one run.
#[derive(Drop)]
struct Batches {
    before: Vec<Put>,
    now: Vec<Put>,
    waiting: Vec<Vec<Put>>,
}

/// The range that words tell.
fn range_of<'a>(call: &str, words: &mut SplitWhitespace<'a>) -> Result<Range<'a>, Why> {
    let first = number::<i64>(words)?;
    let last = number::<i64>(words)?;
    match call {
        "oldest" => Ok(Range::Oldest { first, last }),
        "newest" => Ok(Range::Newest { first, last }),
        _ => Ok(Range::Dated {
            first,
            last,
            since: word(words)?,
            before: word(words)?,
        }),
    }
}

/// What is done to a file.
fn job_of<'a>(
    call: &str,
    rest: &'a str,
    words: &mut SplitWhitespace<'a>,
    batch: &'a [Put],
) -> Result<Job<'a>, Why> {
    Ok(match call {
        "open" => Job::Open,
        "put" => Job::Put(batch),
        "stands" => Job::Stands,
        "sql" => Job::Statements(rest),
        "follow" => Job::Follow(word(words)?),
        "first" => Job::First(range_of(word(words)?, words)?),
        _ => Job::Items(range_of(call, words)?),
    })
}

/// The answer to a line that names a file.
fn of_file<'a>(rt: &HostRuntime, line: &'a str, batch: &'a [Put]) -> Result<String, Why> {
    let (call, rest) = line.split_once(' ').ok_or(Why::Line)?;
    if call == "timed" {
        let (call, rest) = rest.split_once(' ').ok_or(Why::Line)?;
        let (file, words) = rest.split_once(' ').unwrap_or((rest, ""));
        let job = job_of(call, words, &mut words.split_whitespace(), batch)?;
        return timed(rt, file, job);
    }
    let (file, rest) = rest.split_once(' ').unwrap_or((rest, ""));
    let mut words = rest.split_whitespace();
    match call {
        "same" => is_same(rt, file, word(&mut words)?),
        "cut" => cut(rt, file, number::<usize>(&mut words)?),
        _ => {
            let job = job_of(call, rest, &mut words, batch)?;
            do_in(rt, file, job)
        }
    }
}

/// What ends runs.
fn end_of(word: &str) -> Result<End, Why> {
    match word {
        "killed-at-log" => Ok(End::KilledAtLog),
        "killed-at-database" => Ok(End::KilledAtDatabase),
        _ => Err(Why::Line),
    }
}

/// The answer to a line, if it has one.
fn answer(rt: &HostRuntime, line: &str, batches: &mut Batches) -> Result<Option<String>, Why> {
    let alloc = rt.alloc();
    let mut words = line.split_whitespace();
    match maybe(&mut words) {
        None => return Ok(None),
        Some("begins") => {
            batches.before = std::mem::replace(&mut batches.now, Vec::new(alloc));
            return Ok(None);
        }
        Some("next") => {
            let batch = std::mem::replace(&mut batches.now, Vec::new(alloc));
            batches.waiting.push(batch)?;
            return Ok(None);
        }
        Some("timed-each") => {
            let waiting = std::mem::replace(&mut batches.waiting, Vec::new(alloc));
            return Ok(Some(timed_each(rt, word(&mut words)?, waiting.as_slice())?));
        }
        Some("ended") => {
            let (before, now) = (batches.before.as_slice(), batches.now.as_slice());
            return Ok(Some(each(alloc, end_of(word(&mut words)?)?, before, now)?));
        }
        Some(call) => {
            if let Some(row) = row_of(alloc, call, &mut words)? {
                batches.now.push(row)?;
                return Ok(None);
            }
        }
    }
    let told = of_file(rt, line, batches.now.as_slice())?;
    if line.starts_with("put ") || line.starts_with("timed put ") {
        batches.now = Vec::new(alloc);
    }
    Ok(Some(told))
}

fn main(rt: HostRuntime) -> io::Result<()> {
    let alloc = rt.alloc();
    let mut output = BufWriter::new(alloc, io::writer(&rt))?;
    let mut batches = Batches {
        before: Vec::new(alloc),
        now: Vec::new(alloc),
        waiting: Vec::new(alloc),
    };
    for line in BufReader::new(alloc, rt.reader())?.lines(alloc) {
        let line = line?;
        if line.as_str().starts_with("#") {
            writeln!(output, "{line}")?;
            continue;
        }
        match answer(&rt, line.as_str(), &mut batches) {
            Ok(Some(told)) => writeln!(output, "{told}")?,
            Ok(None) => {}
            Err(why) => writeln!(output, "{}: {}", line.as_str(), why.text())?,
        }
    }
    output.flush()
}
