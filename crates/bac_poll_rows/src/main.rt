//! Answers lines about polls of one trend log, so that the tests of their rule are rows of data:
//! `count 8` is answered by what the poll brings for a Total_Record_Count of 8, and by what it asks
//! then.
//!
//! The rows are examples/vectors/polls.vectors, which says what the lines are; each stands there
//! with the answer of the rule, and examples/check/polls.py compares. Only safety is proved here:
//! what a poll asks and brings is proved in bac_poll.
#![tactic(auto)]

mod answers;
mod fault;
mod starts;
mod text;
mod words;

use crate::answers::after;
use crate::fault::Fault;
use crate::starts::{behind, starting};
use crate::text::asked;
use bac_poll::LogPoll;
use std::alloc::Global;
use std::io;
use std::io::{BufRead, BufReader, BufWriter, Read, Write};

/// The answer to a line. A poll is kept from line to line.
fn answer(alloc: Global, line: &str, poll: &mut Option<LogPoll>) -> Result<String, Fault> {
    let mut words = line.split_whitespace();
    let call = words::word(&mut words)?;
    if call == "behind" || call == "starting" {
        let begun = if call == "behind" {
            behind(alloc, &mut words)?
        } else {
            starting(alloc, &mut words)?
        };
        let text = asked(alloc, &begun)?;
        *poll = Some(begun);
        return Ok(text);
    }
    match poll {
        Some(poll) => after(alloc, call, &mut words, poll),
        None => Err(Fault::BadLine),
    }
}

fn print<W: Write>(output: &mut W, answered: Result<String, Fault>) -> io::Result<()> {
    match answered {
        Ok(text) => writeln!(output, "{text}"),
        Err(fault) => writeln!(output, "{fault:?}"),
    }
}

/// Answers each line of the input.
fn answer_lines<I: Read + Drop, O: Write>(
    alloc: Global,
    input: I,
    output: &mut O,
) -> io::Result<()> {
    let mut poll = None;
    for line in BufReader::new(alloc, input)?.lines(alloc) {
        print(output, answer(alloc, line?.as_str(), &mut poll))?;
    }
    Ok(())
}

fn main(rt: HostRuntime) -> io::Result<()> {
    let mut output = BufWriter::new(rt.alloc(), io::writer(&rt))?;
    answer_lines(rt.alloc(), rt.reader(), &mut output)?;
    output.flush()
}
