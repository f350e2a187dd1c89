//! The texts of numbers.

ghost use Rattle.std.specs.Prelude.{◌≡◌, ◌++◌, List, OnOk, Some};
ghost use Rattle.std.specs.Float.Ieee.{binary32, binary64};
ghost use Rattle.ryu.specs.Parse.{parse_float};
ghost use Rattle.bac_values.specs.Numbers.{AppendsNumber, double_of, real_of};

use ryu::Buffer;
use std::alloc::AllocError;
use std::num::{f32_from_bits_with_nan, f64_from_bits_with_nan};

/// Appends the shortest text that reads back as a number.
pub fn push_short(text: &mut Vec<u8>, value: f64) -> Result<(), AllocError>
    ensures { OnOk result ((short : List _) × (parse_float binary64 short ≡ Some value)
        × (text.new.items ≡ text.old.items ++ short)) }
{
    text.extend_from_slice(Buffer::new().format(value).as_bytes())
}

/// Appends the shortest decimal number that reads back as a REAL, given by its octets; false if
/// that is no finite number, and then nothing is appended.
pub fn push_real(text: &mut Vec<u8>, octets: [u8; 4]) -> Result<bool, AllocError>
    ensures { AppendsNumber binary32 (real_of octets) text.old.items result text.new.items }
{
    let value = f32_from_bits_with_nan(u32::from_be_bytes(octets));
    if !value.is_finite() {
        return Ok(false);
    }
    text.extend_from_slice(Buffer::new().format_finite(value).as_bytes())?;
    Ok(true)
}

/// The same of a Double.
pub fn push_double(text: &mut Vec<u8>, octets: [u8; 8]) -> Result<bool, AllocError>
    ensures { AppendsNumber binary64 (double_of octets) text.old.items result text.new.items }
{
    let value = f64_from_bits_with_nan(u64::from_be_bytes(octets));
    if !value.is_finite() {
        return Ok(false);
    }
    text.extend_from_slice(Buffer::new().format_finite(value).as_bytes())?;
    Ok(true)
}
