//! Values of a property, a line each.

ghost use Rattle.std.specs.Prelude.{◌≡◌, ◌++◌, List, ℕ, OnOk};
ghost use Rattle.std.specs.Float.Ieee.{binary32, binary64};
ghost use Rattle.bac_wire.specs.View.{view, IsWellFormed};
ghost use Rattle.bac_print.specs.Values.{value_text};
ghost use Rattle.bac_query.specs.Values.{IsNumberOr, IsNumberText, IsShown, IsText, ShowsLines};
ghost use Rattle.bac_query.specs.Values.{raw_line};
ghost use Rattle.bac_values.specs.Numbers.{double_of, real_of};

use crate::reals::Reals;
use bac_print::push_value;
use bac_values::{push_double, push_real};
use bac_wire::{Value, read_value};
use std::alloc::{AllocError, Global};

/// Appends the octets as they are.
fn push_raw(alloc: Global, text: &mut Vec<u8>, octets: &[u8]) -> Result<(), AllocError>
    ensures { OnOk result (text.new.items ≡ text.old.items ++ raw_line octets.now) }
{
    let digits = hex::encode(alloc, octets)?;
    text.extend_from_slice(b"raw(")?;
    text.extend_from_slice(digits.as_bytes())?;
    text.extend_from_slice(b")\n")
}

/// Appends a REAL as a number, or else the text of the value that it is.
fn push_real_or(text: &mut Vec<u8>, octets: [u8; 4], value: &Value) -> Result<(), AllocError>
    requires { IsWellFormed value.now }
    ensures { OnOk result ((one : List ℕ)
        × IsNumberOr binary32 (real_of octets) (value_text (view value.now)) one
        × (text.new.items ≡ text.old.items ++ one)) }
{
    if push_real(text, octets)? {
        return Ok(());
    }
    push_value(text, value)
}

/// Appends a Double as a number, or else the text of the value that it is.
fn push_double_or(text: &mut Vec<u8>, octets: [u8; 8], value: &Value) -> Result<(), AllocError>
    requires { IsWellFormed value.now }
    ensures { OnOk result ((one : List ℕ)
        × IsNumberOr binary64 (double_of octets) (value_text (view value.now)) one
        × (text.new.items ≡ text.old.items ++ one)) }
{
    if push_double(text, octets)? {
        return Ok(());
    }
    push_value(text, value)
}

/// Appends a value, a REAL or a Double as a number.
fn push_number_value(text: &mut Vec<u8>, value: &Value) -> Result<(), AllocError>
    requires { IsWellFormed value.now }
    ensures { OnOk result ((one : List ℕ) × IsNumberText (view value.now) one
        × (text.new.items ≡ text.old.items ++ one)) }
{
    match value {
        Value::Real4(octets) => push_real_or(text, *octets, value),
        Value::Double8(octets) => push_double_or(text, *octets, value),
        _ => push_value(text, value),
    }
}

/// Appends a value.
fn push_shown(text: &mut Vec<u8>, value: &Value, reals: Reals) -> Result<(), AllocError>
    requires { IsWellFormed value.now }
    ensures { OnOk result ((one : List ℕ) × IsText reals (view value.now) one
        × (text.new.items ≡ text.old.items ++ one)) }
{
    match reals {
        Reals::Octets => push_value(text, value),
        Reals::Numbers => push_number_value(text, value),
    }
}

/// Appends a line for each value; whether the octets are values and nothing else.
fn push_lines(text: &mut Vec<u8>, octets: &[u8], reals: Reals) -> Result<bool, AllocError>
    ensures { ShowsLines reals octets.now text.old.items text.new.items result }
{
    let mut rest = octets;
    while !rest.is_empty() {
        match read_value(rest) {
            Ok((value, len)) => {
                push_shown(text, &value, reals)?;
                text.extend_from_slice(b"\n")?;
                rest = &rest[len..];
            }
            Err(_) => return Ok(false),
        }
    }
    Ok(true)
}

/// Appends the values that octets encode, a line each. If the octets aren't all values after
/// application tags, one line has them as they are: `raw(HEX)`.
pub fn push_values(
    alloc: Global,
    text: &mut Vec<u8>,
    octets: &[u8],
    reals: Reals,
) -> Result<(), AllocError>
    ensures { OnOk result ((shown : List ℕ) × IsShown reals octets.now shown
        × (text.new.items ≡ text.old.items ++ shown)) }
{
    let kept = text.len();
    if push_lines(text, octets, reals)? {
        return Ok(());
    }
    text.truncate(kept);
    push_raw(alloc, text, octets)
}
