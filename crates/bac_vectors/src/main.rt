//! Answers lines of calls and octets, so that tests of the encodings and of trend logs are rows of
//! data: `read_value 32 ff 80` is answered by `Ok((Signed(-128), 3))`.
//!
//! The rows are examples/vectors/*.vectors, each with the answer that the standard gives, and
//! examples/check/vectors.sh compares. Only safety is proved here: what the calls answer is proved
//! where they stand.
#![tactic(auto)]

mod apdus;
mod bench;
mod contents;
mod cuts;
mod fault;
mod headers;
mod kept;
mod logs;
mod moments;
mod records;
mod services;
mod text;
mod words;

use crate::bench::Bench;
use crate::fault::Fault;
use std::alloc::Global;
use std::io;
use std::io::{BufRead, BufReader, BufWriter, Read, Write};
use std::str::SplitWhitespace;

/// The answer to a line. Calls on what is kept and calls with numbers come before those on octets.
fn answer(alloc: Global, line: &str, bench: &mut Bench) -> Result<String, Fault> {
    let mut words = line.split_whitespace();
    let call = words::word(&mut words)?;
    if let Some(text) = on_bench(alloc, call, &mut words, bench) {
        return text;
    }
    match with_numbers(alloc, call, &mut words) {
        Some(text) => text,
        None => on_octets(alloc, call, &words::octets(alloc, &mut words)?),
    }
}

/// The calls on what is kept.
fn on_bench(
    alloc: Global,
    call: &str,
    words: &mut SplitWhitespace,
    bench: &mut Bench,
) -> Option<Result<String, Fault>> {
    match kept::answer(alloc, call, words, bench) {
        Some(text) => Some(text),
        None => logs::answer(alloc, call, words, bench),
    }
}

/// The calls with numbers.
fn with_numbers(
    alloc: Global,
    call: &str,
    words: &mut SplitWhitespace,
) -> Option<Result<String, Fault>> {
    if call == "prefixes" {
        return Some(cuts::prefixes(alloc, words));
    }
    if let Some(text) = moments::answer(alloc, call, words) {
        return Some(text);
    }
    if let Some(text) = contents::numbered(alloc, call, words) {
        return Some(text);
    }
    records::answer(alloc, call, words)
}

/// The calls on octets alone.
fn on_octets(alloc: Global, call: &str, octets: &[u8]) -> Result<String, Fault> {
    if let Some(text) = contents::answer(alloc, call, octets) {
        return text;
    }
    if let Some(text) = headers::answer(alloc, call, octets) {
        return text;
    }
    match services::answer(alloc, call, octets) {
        Some(text) => text,
        None => Err(Fault::BadLine),
    }
}

fn print<W: Write>(output: &mut W, answered: Result<String, Fault>) -> io::Result<()> {
    match answered {
        Ok(text) => writeln!(output, "{text}"),
        Err(fault) => writeln!(output, "{fault:?}"),
    }
}

/// Answers each line of the input.
fn answer_lines<I: Read + Drop, O: Write>(
    alloc: Global,
    input: I,
    output: &mut O,
) -> io::Result<()> {
    let mut bench = Bench::new();
    for line in BufReader::new(alloc, input)?.lines(alloc) {
        print(output, answer(alloc, line?.as_str(), &mut bench))?;
    }
    Ok(())
}

fn main(rt: HostRuntime) -> io::Result<()> {
    let mut output = BufWriter::new(rt.alloc(), io::writer(&rt))?;
    answer_lines(rt.alloc(), rt.reader(), &mut output)?;
    output.flush()
}
