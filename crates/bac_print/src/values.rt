//! Primitive values (clauses 20.2.2 to 20.2.14).

ghost use Rattle.std.specs.Prelude.{◌≡◌, ◌++◌, OnOk, codes};
ghost use Rattle.std.specs.List.{list_any};
ghost use Rattle.std.specs.Str.{is_utf8};
ghost use Rattle.bac_wire.specs.View.{view, IsWellFormed};
ghost use Rattle.bac_wire.specs.Stamp.{date_octets, time_octets};
ghost use Rattle.bac_print.specs.Numbers.{called};
ghost use Rattle.bac_print.specs.Moments.{date_text, time_text};
ghost use Rattle.bac_print.specs.Values.{boolean_text, chars_text, is_plain, is_special};
ghost use Rattle.bac_print.specs.Values.{value_text};

use crate::moments::{push_date, push_time};
use crate::numbers::{
    push_called_bits, push_called_hex, push_called_number, push_called_two, push_hex, push_number,
    push_signed,
};
use bac_wire::{Date4, Time4, Value};
use std::alloc::AllocError;

/// Whether an octet is a control character, a quote or a backslash.
fn is_special(octet: u8) -> bool
    ensures { result ≡ is_special octet }
{
    octet < 32 || octet == 127 || octet == b'"' || octet == b'\\'
}

/// Whether octets have a special character.
fn has_special(octets: &[u8]) -> bool
    ensures { result ≡ list_any is_special octets.now }
{
    octets.iter().any(|octet| is_special(*octet))
}

/// Whether octets are UTF-8.
fn is_utf8(octets: &[u8]) -> bool
    ensures { result ≡ is_utf8 octets.now }
{
    match str::from_utf8(octets) {
        Ok(_) => true,
        Err(_) => false,
    }
}

/// Whether characters are shown as they are.
fn is_plain(set: u8, octets: &[u8]) -> bool
    ensures { result ≡ is_plain set octets.now }
{
    set == 0 && is_utf8(octets) && !has_special(octets)
}

/// Appends a character string.
fn push_chars(text: &mut Vec<u8>, set: u8, octets: &[u8]) -> Result<(), AllocError>
    ensures { OnOk result (text.new.items ≡ text.old.items ++ chars_text set octets.now) }
{
    if is_plain(set, octets) {
        text.extend_from_slice(b"\"")?;
        text.extend_from_slice(octets)?;
        return text.extend_from_slice(b"\"");
    }
    text.extend_from_slice(b"chars(")?;
    push_number(text, u64::from(set))?;
    text.extend_from_slice(b",")?;
    push_hex(text, octets)?;
    text.extend_from_slice(b")")
}

/// Appends `true` or `false`.
pub(crate) fn push_boolean(text: &mut Vec<u8>, flag: bool) -> Result<(), AllocError>
    ensures { OnOk result (text.new.items ≡ text.old.items ++ boolean_text flag) }
{
    if flag {
        text.extend_from_slice(b"true")
    } else {
        text.extend_from_slice(b"false")
    }
}

/// Appends a date.
fn push_date_value(text: &mut Vec<u8>, date: Date4) -> Result<(), AllocError>
    ensures { OnOk result
        (text.new.items ≡ text.old.items ++ called (codes "date") (date_text (date_octets date))) }
{
    text.extend_from_slice(b"date(")?;
    push_date(text, date)?;
    text.extend_from_slice(b")")
}

/// Appends a time.
fn push_time_value(text: &mut Vec<u8>, time: Time4) -> Result<(), AllocError>
    ensures { OnOk result
        (text.new.items ≡ text.old.items ++ called (codes "time") (time_text (time_octets time))) }
{
    text.extend_from_slice(b"time(")?;
    push_time(text, time)?;
    text.extend_from_slice(b")")
}

/// Appends a value, as specs/Values has it. A Real or a Double is shown by its octets, and
/// characters that aren't plain UTF-8 are too.
#[tactic(auto, unfolding(crate::specs::Values::value_text))]
pub fn push_value(text: &mut Vec<u8>, value: &Value) -> Result<(), AllocError>
    requires { IsWellFormed value.now }
    ensures { OnOk result (text.new.items ≡ text.old.items ++ value_text (view value.now)) }
{
    match value {
        Value::Null => text.extend_from_slice(b"null"),
        Value::Boolean(flag) => push_boolean(text, *flag),
        Value::Unsigned(n) => push_number(text, *n),
        Value::Signed(z) => push_signed(text, *z),
        Value::Real4(octets) => push_called_hex(text, "real", octets),
        Value::Double8(octets) => push_called_hex(text, "double", octets),
        Value::Octets(octets) => push_called_hex(text, "octets", octets),
        Value::Chars { set, octets } => push_chars(text, *set, octets),
        Value::Bits { unused, octets } => {
            push_called_bits(text, "bits", octets, usize::from(*unused))
        }
        Value::Enumerated(n) => push_called_number(text, "enum", u64::from(*n)),
        Value::Date(date) => push_date_value(text, *date),
        Value::Time(time) => push_time_value(text, *time),
        Value::Object(object) => push_called_two(
            text,
            "object",
            u64::from(object.kind()),
            u64::from(object.instance()),
        ),
    }
}
