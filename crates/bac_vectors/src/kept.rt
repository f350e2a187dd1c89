//! A datagram that is kept from line to line: what it begins with, and what is appended.

ghost use Rattle.std.specs.Prelude.{◌≤◌, IfOk};

use crate::bench::Bench;
use crate::fault::Fault;
use crate::records::entry;
use crate::text::{digits, none};
use crate::words::{number, octets};
use bac_apdu::{begin_datagram, end_datagram, read_npdu};
use bac_log::write_entry;
use bac_wire::{
    Datagram, Full, read_value, write_close, write_context, write_octets, write_open, write_value,
};
use std::alloc::Global;
use std::str::SplitWhitespace;

pub(crate) fn answer(
    alloc: Global,
    call: &str,
    words: &mut SplitWhitespace,
    bench: &mut Bench,
) -> Option<Result<String, Fault>> {
    Some(match call {
        "datagram" => begun(alloc, words, bench),
        "put_open" | "put_close" => mark(alloc, call, words, bench),
        "put_context" => context(alloc, words, bench),
        "put_value" => value(alloc, words, bench),
        "put_octets" => plain(alloc, words, bench),
        "put_entry" => record(alloc, words, bench),
        "put_frame" => frame(alloc, words, bench),
        "set" => set(alloc, words, bench),
        "cut" => cut(alloc, words, bench),
        _ => return None,
    })
}

/// The datagram begins with these octets, of which the number is told.
fn begun(alloc: Global, words: &mut SplitWhitespace, bench: &mut Bench) -> Result<String, Fault> {
    let octets = octets(alloc, words)?;
    let Some(out) = Datagram::of(&octets) else {
        return none(alloc);
    };
    let len = out.octets().len();
    bench.head = out.copy();
    bench.out = out;
    Ok(format!(in alloc; "{len} octets")?)
}

/// Whether it was written, and what now stands after what the datagram began with.
fn told(alloc: Global, done: Result<(), Full>, bench: &Bench) -> Result<String, Fault> {
    let all = bench.out.octets();
    let text = match all.strip_prefix(bench.head.octets()) {
        Some(behind) => digits(alloc, behind)?,
        None => {
            let all = digits(alloc, all)?;
            format!(in alloc; "in all {all}")?
        }
    };
    Ok(match done {
        Ok(()) => text,
        Err(Full) => format!(in alloc; "Full {text}")?,
    })
}

fn tag_of(words: &mut SplitWhitespace) -> Result<u8, Fault>
    ensures { IfOk result (λ n. n ≤ 254) }
{
    let tag = number::<u8>(words)?;
    if tag > 254 {
        return Err(Fault::BadLine);
    }
    Ok(tag)
}

fn mark(
    alloc: Global,
    call: &str,
    words: &mut SplitWhitespace,
    bench: &mut Bench,
) -> Result<String, Fault> {
    let tag = tag_of(words)?;
    let done = if call == "put_open" {
        write_open(&mut bench.out, tag)
    } else {
        write_close(&mut bench.out, tag)
    };
    told(alloc, done, bench)
}

fn context(alloc: Global, words: &mut SplitWhitespace, bench: &mut Bench) -> Result<String, Fault> {
    let tag = tag_of(words)?;
    let octets = octets(alloc, words)?;
    let Ok((value, _)) = read_value(&octets) else {
        return Err(Fault::BadLine);
    };
    let done = write_context(&mut bench.out, tag, &value);
    told(alloc, done, bench)
}

fn value(alloc: Global, words: &mut SplitWhitespace, bench: &mut Bench) -> Result<String, Fault> {
    let octets = octets(alloc, words)?;
    let Ok((value, _)) = read_value(&octets) else {
        return Err(Fault::BadLine);
    };
    let done = write_value(&mut bench.out, &value);
    told(alloc, done, bench)
}

fn plain(alloc: Global, words: &mut SplitWhitespace, bench: &mut Bench) -> Result<String, Fault> {
    let octets = octets(alloc, words)?;
    let done = write_octets(&mut bench.out, &octets);
    told(alloc, done, bench)
}

fn record(alloc: Global, words: &mut SplitWhitespace, bench: &mut Bench) -> Result<String, Fault> {
    let entry = entry(words)?;
    if !entry.writable() {
        return Err(Fault::BadLine);
    }
    let done = write_entry(&mut bench.out, &entry);
    told(alloc, done, bench)
}

/// A frame round a network header and what follows it.
fn frame(alloc: Global, words: &mut SplitWhitespace, bench: &mut Bench) -> Result<String, Fault> {
    let octets = octets(alloc, words)?;
    let Some((npdu, apdu)) = read_npdu(&octets) else {
        return Err(Fault::BadLine);
    };
    let start = bench.out.octets().len();
    let begun = begin_datagram(&mut bench.out, &npdu);
    let added = write_octets(&mut bench.out, apdu);
    let done = begun.and(added);
    if done.is_ok() && start + 4 <= bench.out.octets().len() {
        end_datagram(&mut bench.out, start);
    }
    told(alloc, done, bench)
}

fn set(alloc: Global, words: &mut SplitWhitespace, bench: &mut Bench) -> Result<String, Fault> {
    let index = number::<usize>(words)?;
    let octet = number::<u8>(words)?;
    if index >= bench.out.octets().len() {
        return Err(Fault::BadLine);
    }
    bench.out.set(index, octet);
    told(alloc, Ok(()), bench)
}

fn cut(alloc: Global, words: &mut SplitWhitespace, bench: &mut Bench) -> Result<String, Fault> {
    let len = number::<usize>(words)?;
    bench.out.cut(len);
    told(alloc, Ok(()), bench)
}
