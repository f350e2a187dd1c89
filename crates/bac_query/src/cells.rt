//! What is printed of the properties of a trend log (clause 12.25).

ghost use Rattle.std.specs.Prelude.{◌≡◌, ◌++◌, List, ℕ, codes, decimal, OnOk};
ghost use Rattle.bac_print.specs.Numbers.{called};
ghost use Rattle.bac_wire.specs.View.{view, IsWellFormed};
ghost use Rattle.bac_link.specs.Datagrams.{apdu_in};
ghost use Rattle.bac_query.specs.Cells.{Answers, ShowsAck, ShowsOctets, ShowsOne, ShowsSource};
ghost use Rattle.bac_query.specs.Cells.{cell_text, enumerated_text, seconds_text, type_text};
ghost use Rattle.bac_query.specs.Cells.{unsigned_text};
ghost use Rattle.bac_query.specs.Answers.{values_in};

use crate::answers::{only_value, values_in};
use crate::fault::QueryFault;
use crate::source::{push_source, source_in};
use bac_link::ExchangeFault;
use bac_print::{push_number, push_value};
use bac_wire::{Datagram, Value};
use std::alloc::AllocError;

/// Log_DeviceObjectProperty: what is logged.
const SOURCE: u32 = 132;

/// Log_Interval, in hundredths of a second.
const INTERVAL: u32 = 134;

/// Logging_Type: how the log is fed.
const TYPE: u32 = 197;

/// Appends hundredths of a second, in seconds.
fn push_seconds(text: &mut Vec<u8>, n: u64) -> Result<(), AllocError>
    ensures { OnOk result (text.new.items ≡ text.old.items ++ seconds_text n) }
{
    push_number(text, n / 100)?;
    text.extend_from_slice(b".")?;
    let part = n % 100;
    if part < 10 {
        text.extend_from_slice(b"0")?;
    }
    push_number(text, part)
}

/// Appends how a log is fed (BACnetLoggingType, clause 21).
fn push_type(text: &mut Vec<u8>, n: u32) -> Result<(), AllocError>
    ensures { OnOk result (text.new.items ≡ text.old.items ++ type_text n) }
{
    if n == 0 {
        return text.extend_from_slice(b"polled");
    }
    if n == 1 {
        return text.extend_from_slice(b"cov");
    }
    if n == 2 {
        return text.extend_from_slice(b"triggered");
    }
    push_other(text, n)
}

/// Appends an Enumerated by its number.
fn push_other(text: &mut Vec<u8>, n: u32) -> Result<(), AllocError>
    ensures { OnOk result (text.new.items ≡ text.old.items ++ called (codes "enum") (decimal n)) }
{
    text.extend_from_slice(b"enum(")?;
    push_number(text, u64::from(n))?;
    text.extend_from_slice(b")")
}

fn push_unsigned(text: &mut Vec<u8>, property: u32, n: u64) -> Result<(), AllocError>
    ensures { OnOk result (text.new.items ≡ text.old.items ++ unsigned_text property n) }
{
    if property == INTERVAL {
        return push_seconds(text, n);
    }
    push_number(text, n)
}

fn push_enumerated(text: &mut Vec<u8>, property: u32, n: u32) -> Result<(), AllocError>
    ensures { OnOk result (text.new.items ≡ text.old.items ++ enumerated_text property n) }
{
    if property == TYPE {
        return push_type(text, n);
    }
    push_other(text, n)
}

/// Appends a value of a property.
fn push_cell(text: &mut Vec<u8>, property: u32, value: &Value) -> Result<(), AllocError>
    requires { IsWellFormed value.now }
    ensures { OnOk result (text.new.items ≡ text.old.items ++ cell_text property (view value.now)) }
{
    match value {
        Value::Unsigned(n) => push_unsigned(text, property, *n),
        Value::Enumerated(n) => push_enumerated(text, property, *n),
        _ => push_value(text, value),
    }
}

/// Appends the one value that octets are.
fn push_one(text: &mut Vec<u8>, property: u32, octets: &[u8]) -> Result<(), AllocError>
    ensures { OnOk result ((cell : List ℕ) × ShowsOne property octets.now cell
        × (text.new.items ≡ text.old.items ++ cell)) }
{
    match only_value(octets) {
        Some(value) => push_cell(text, property, &value),
        None => text.extend_from_slice(b"?"),
    }
}

/// Appends the reference that octets are.
fn push_reference(text: &mut Vec<u8>, octets: &[u8]) -> Result<(), AllocError>
    ensures { OnOk result ((cell : List ℕ) × ShowsSource octets.now cell
        × (text.new.items ≡ text.old.items ++ cell)) }
{
    match source_in(octets) {
        Ok(source) => push_source(text, source),
        Err(_) => text.extend_from_slice(b"?"),
    }
}

/// Appends what octets are.
fn push_octets(text: &mut Vec<u8>, property: u32, octets: &[u8]) -> Result<(), AllocError>
    ensures { OnOk result ((cell : List ℕ) × ShowsOctets property octets.now cell
        × (text.new.items ≡ text.old.items ++ cell)) }
{
    if property == SOURCE {
        return push_reference(text, octets);
    }
    push_one(text, property, octets)
}

/// Appends the values of an ACK to the question for a property.
fn push_ack(text: &mut Vec<u8>, property: u32, answer: &Datagram) -> Result<(), AllocError>
    ensures { OnOk result ((cell : List ℕ)
        × ShowsAck property (values_in (apdu_in answer.now)) cell
        × (text.new.items ≡ text.old.items ++ cell)) }
{
    match values_in(answer) {
        Some(octets) => push_octets(text, property, octets),
        None => text.extend_from_slice(b"?"),
    }
}

/// Appends the cell of what came to the question for a property.
pub(crate) fn push_answer(
    text: &mut Vec<u8>,
    property: u32,
    answer: Result<Datagram, ExchangeFault>,
) -> Result<(), QueryFault>
    ensures { Answers property answer text.old.items result text.new.items }
{
    match answer {
        Ok(datagram) => {
            push_ack(text, property, &datagram)?;
            Ok(())
        }
        Err(ExchangeFault::Refused(_)) => {
            text.extend_from_slice(b"-")?;
            Ok(())
        }
        Err(ExchangeFault::BadReply) => {
            text.extend_from_slice(b"?")?;
            Ok(())
        }
        Err(ExchangeFault::Lost) => Err(QueryFault::Exchange(ExchangeFault::Lost)),
        Err(ExchangeFault::TooLong) => Err(QueryFault::Exchange(ExchangeFault::TooLong)),
    }
}
