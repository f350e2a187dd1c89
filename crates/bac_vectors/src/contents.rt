//! Values, tags and contents.

use crate::fault::Fault;
use crate::text::{shown, written};
use crate::words::{number, octets, word};
use bac_wire::{
    Datagram, PrimitiveType, as_bits, as_boolean, as_enumerated, as_object, as_signed, as_unsigned,
    is_opening_next, is_other_type_next, is_value_next, octets_to_close, read_close, read_context,
    read_open, read_value, write_context, write_value,
};
use std::alloc::Global;
use std::str::SplitWhitespace;

/// The calls on octets alone.
pub(crate) fn answer(alloc: Global, call: &str, octets: &[u8]) -> Option<Result<String, Fault>> {
    Some(match call {
        "read_value" => shown(alloc, &read_value(octets)),
        "write_value" => value_again(alloc, octets),
        "as_unsigned" => shown(alloc, &as_unsigned(octets)),
        "as_signed" => shown(alloc, &as_signed(octets)),
        "as_boolean" => shown(alloc, &as_boolean(octets)),
        "as_enumerated" => shown(alloc, &as_enumerated(octets)),
        "as_bits" => shown(alloc, &as_bits(octets)),
        "as_object" => shown(alloc, &as_object(octets)),
        _ => return None,
    })
}

/// The value that is read, written.
fn value_again(alloc: Global, octets: &[u8]) -> Result<String, Fault> {
    let mut out = Datagram::new();
    match read_value(octets) {
        Ok((value, _)) => written(alloc, write_value(&mut out, &value), &out),
        Err(fault) => shown(alloc, &fault),
    }
}

/// The calls with the number of a tag before the octets.
pub(crate) fn numbered(
    alloc: Global,
    call: &str,
    words: &mut SplitWhitespace,
) -> Option<Result<String, Fault>> {
    Some(match call {
        "is_other_type_next" => other_type(alloc, words),
        "read_context"
        | "write_context"
        | "read_open"
        | "read_close"
        | "octets_to_close"
        | "is_value_next"
        | "is_opening_next" => tagged(alloc, call, words),
        _ => return None,
    })
}

/// The name of a type, and octets.
fn other_type(alloc: Global, words: &mut SplitWhitespace) -> Result<String, Fault> {
    let kind = kind_of(word(words)?)?;
    let octets = octets(alloc, words)?;
    shown(alloc, &is_other_type_next(&octets, kind))
}

/// The number of a tag, and octets.
fn tagged(alloc: Global, call: &str, words: &mut SplitWhitespace) -> Result<String, Fault> {
    let tag = number::<u8>(words)?;
    let octets = octets(alloc, words)?;
    at_tag(alloc, call, tag, &octets)
}

fn at_tag(alloc: Global, call: &str, tag: u8, octets: &[u8]) -> Result<String, Fault> {
    match call {
        "read_context" => shown(alloc, &read_context(octets, tag)),
        "write_context" => context_again(alloc, tag, octets),
        "read_open" => shown(alloc, &read_open(octets, tag)),
        "read_close" => shown(alloc, &read_close(octets, tag)),
        "octets_to_close" => shown(alloc, &octets_to_close(octets, tag)),
        "is_value_next" => shown(alloc, &is_value_next(octets, tag)),
        "is_opening_next" => shown(alloc, &is_opening_next(octets, tag)),
        _ => Err(Fault::BadLine),
    }
}

/// The value that is read, written after a context tag.
fn context_again(alloc: Global, tag: u8, octets: &[u8]) -> Result<String, Fault> {
    if tag > 254 {
        return Err(Fault::BadLine);
    }
    let mut out = Datagram::new();
    match read_value(octets) {
        Ok((value, _)) => written(alloc, write_context(&mut out, tag, &value), &out),
        Err(fault) => shown(alloc, &fault),
    }
}

fn kind_of(word: &str) -> Result<PrimitiveType, Fault> {
    match word {
        "Unsigned" => Ok(PrimitiveType::Unsigned),
        "Enumerated" => Ok(PrimitiveType::Enumerated),
        _ => Err(Fault::BadLine),
    }
}
