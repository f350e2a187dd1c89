//! Moments of this machine's clock in UTC.

ghost use Rattle.std.specs.Prelude.{◌≡◌, IfNone, IfSome};
ghost use Rattle.bac_site_poller.specs.Moment.{IsAfter, IsBeyond, IsMoment, nanos_after};

use bac_wire::Stamp;
use jiff_core::civil::DateTime;

/// Nanoseconds from 1970-01-01T00:00 to 1990-01-01T00:00.
const TO_1990: i128 = 631_152_000_000_000_000;

// Nanoseconds from 1970 to a moment so many milliseconds behind another.
fn nanos_after(begun: Stamp, ms: u64) -> i128
    ensures { result ≡ nanos_after begun ms }
{
    TO_1990 + i128::from(begun.ticks()) * 10_000_000 + i128::from(ms) * 1_000_000
}

// The moment so many milliseconds behind another, if a stamp shows it.
fn shown_after(begun: Stamp, ms: u64) -> Option<Stamp>
    ensures some { IfSome result (λ moment. IsMoment begun ms moment) }
    ensures none { IfNone result (IsBeyond begun ms) }
{
    match DateTime::from_nanosecond(nanos_after(begun, ms)) {
        Ok(civil) => Stamp::of_civil(civil),
        Err(_) => None,
    }
}

/// The moment so many milliseconds behind another, cut to hundredths of a second; that one, if no
/// stamp shows it.
pub fn moment_after(begun: Stamp, ms: u64) -> Stamp
    ensures { IsAfter begun ms result }
{
    match shown_after(begun, ms) {
        Some(moment) => moment,
        None => begun,
    }
}
