//! The parameters of services: their fields, and how they are written. A confirmed request that
//! can't be read is answered by the reason and by the Reject that carries it.

use crate::fault::Fault;
use crate::text::{none, written};
use bac_apdu::{
    Apdu, IAm, ReadProperty, ReadPropertyAck, ReadRange, ReadRangeAck, Reason, WhoIs,
    WriteProperty, write_apdu,
};
use bac_wire::{Datagram, Full};
use std::alloc::Global;
use std::fmt::Debug;

pub(crate) fn answer(alloc: Global, call: &str, octets: &[u8]) -> Option<Result<String, Fault>> {
    Some(match call {
        "who_is" => who_is(alloc, octets),
        "i_am" => i_am(alloc, octets),
        "read_property" => read_property(alloc, octets),
        "read_property_ack" => read_property_ack(alloc, octets),
        "write_property" => write_property(alloc, octets),
        "read_range" => read_range(alloc, octets),
        "read_range_ack" => read_range_ack(alloc, octets),
        _ => return None,
    })
}

/// The fields, and the octets that are written for them.
fn both<T: Debug>(
    alloc: Global,
    fields: &T,
    done: Result<(), Full>,
    out: &Datagram,
) -> Result<String, Fault> {
    let octets = written(alloc, done, out)?;
    Ok(format!(in alloc; "{fields:?} = {octets}")?)
}

/// The reason, and the Reject of the request with invoke ID 1.
fn refused(alloc: Global, reason: Reason) -> Result<String, Fault> {
    let mut out = Datagram::new();
    let reject = Apdu::Reject {
        invoke: 1,
        reason: reason.code(),
    };
    let done = write_apdu(&mut out, &reject);
    both(alloc, &reason, done, &out)
}

fn who_is(alloc: Global, octets: &[u8]) -> Result<String, Fault> {
    let mut out = Datagram::new();
    match WhoIs::read(octets) {
        Some(limits) => {
            let done = limits.write(&mut out);
            both(alloc, &limits, done, &out)
        }
        None => none(alloc),
    }
}

fn i_am(alloc: Global, octets: &[u8]) -> Result<String, Fault> {
    let mut out = Datagram::new();
    match IAm::read(octets) {
        Some(announced) => {
            let done = announced.write(&mut out);
            both(alloc, &announced, done, &out)
        }
        None => none(alloc),
    }
}

fn read_property(alloc: Global, octets: &[u8]) -> Result<String, Fault> {
    let mut out = Datagram::new();
    match ReadProperty::read(octets) {
        Ok(request) => {
            let done = request.write(&mut out);
            both(alloc, &request, done, &out)
        }
        Err(reason) => refused(alloc, reason),
    }
}

fn read_property_ack(alloc: Global, octets: &[u8]) -> Result<String, Fault> {
    let mut out = Datagram::new();
    match ReadPropertyAck::read(octets) {
        Some(ack) => {
            let done = ack.write(&mut out);
            both(alloc, &ack, done, &out)
        }
        None => none(alloc),
    }
}

fn write_property(alloc: Global, octets: &[u8]) -> Result<String, Fault> {
    let mut out = Datagram::new();
    match WriteProperty::read(octets) {
        Ok(request) => {
            let done = request.write(&mut out);
            both(alloc, &request, done, &out)
        }
        Err(reason) => refused(alloc, reason),
    }
}

fn read_range(alloc: Global, octets: &[u8]) -> Result<String, Fault> {
    let mut out = Datagram::new();
    match ReadRange::read(octets) {
        Ok(request) => {
            let done = request.write(&mut out);
            both(alloc, &request, done, &out)
        }
        Err(reason) => refused(alloc, reason),
    }
}

fn read_range_ack(alloc: Global, octets: &[u8]) -> Result<String, Fault> {
    let mut out = Datagram::new();
    match ReadRangeAck::read(octets) {
        Some(ack) => {
            let done = ack.write(&mut out);
            both(alloc, &ack, done, &out)
        }
        None => none(alloc),
    }
}
