//! The number that a datum is.

ghost use Rattle.std.specs.Prelude.{◌≡◌};
ghost use Rattle.bac_row_ids.specs.Rows.{value_of};

use bac_log::Datum;
use std::num::{f32_from_bits_with_nan, nearest_i64_to_f64, nearest_u64_to_f64};

/// The number that a datum is: of a REAL, a Boolean, an Enumerated, an Unsigned or a Signed, the
/// nearest one that a double has.
pub fn value_of(datum: Datum) -> Option<f64>
    ensures { result ≡ value_of datum }
{
    match datum {
        Datum::Boolean(flag) => Some(f64::from(u32::from(flag))),
        Datum::Real4(octets) => Some(f64::from(f32_from_bits_with_nan(u32::from_be_bytes(octets)))),
        Datum::Enumerated(n) => Some(f64::from(n)),
        Datum::Unsigned(n) => Some(nearest_u64_to_f64(n)),
        Datum::Signed(z) => Some(nearest_i64_to_f64(z)),
        _ => None,
    }
}
