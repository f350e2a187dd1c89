//! A stream that is cut at each octet.

use crate::fault::Fault;
use crate::words::{octets, word};
use bac_apdu::{
    IAm, ReadProperty, ReadPropertyAck, ReadRange, ReadRangeAck, WhoIs, WriteProperty, read_apdu,
    read_frame, read_npdu,
};
use bac_log::read_entry;
use bac_wire::{read_context, read_value};
use std::alloc::Global;
use std::fmt::Write;
use std::str::SplitWhitespace;

/// The lengths of the proper prefixes that are read.
pub(crate) fn prefixes(alloc: Global, words: &mut SplitWhitespace) -> Result<String, Fault> {
    let call = word(words)?;
    let octets = octets(alloc, words)?;
    lengths(alloc, call, &octets)
}

fn lengths(alloc: Global, call: &str, octets: &[u8]) -> Result<String, Fault> {
    let mut text = format!(in alloc; "read:")?;
    for length in 0..octets.len() {
        if is_read(call, &octets[..length])? {
            write!(text, " {length}")?;
        }
    }
    Ok(text)
}

fn is_read(call: &str, octets: &[u8]) -> Result<bool, Fault> {
    match call {
        "read_value" => Ok(read_value(octets).is_ok()),
        "read_context" => Ok(read_context(octets, 0).is_ok()),
        "read_frame" => Ok(read_frame(octets).is_some()),
        "read_npdu" => Ok(read_npdu(octets).is_some()),
        "read_apdu" => Ok(read_apdu(octets).is_some()),
        "read_entry" => Ok(read_entry(octets).is_some()),
        _ => is_service(call, octets),
    }
}

fn is_service(call: &str, octets: &[u8]) -> Result<bool, Fault> {
    match call {
        "who_is" => Ok(WhoIs::read(octets).is_some()),
        "i_am" => Ok(IAm::read(octets).is_some()),
        "read_property" => Ok(ReadProperty::read(octets).is_ok()),
        "read_property_ack" => Ok(ReadPropertyAck::read(octets).is_some()),
        "write_property" => Ok(WriteProperty::read(octets).is_ok()),
        "read_range" => Ok(ReadRange::read(octets).is_ok()),
        "read_range_ack" => Ok(ReadRangeAck::read(octets).is_some()),
        _ => Err(Fault::BadLine),
    }
}
