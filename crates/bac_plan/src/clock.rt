//! Whether the clock of a device is asked for.

ghost use Rattle.std.specs.Prelude.{◌≡◌, IfOk};
ghost use Rattle.bac_plan.specs.Clock.{answered_on, asks_clock, day_of};

use crate::options::Options;
use bac_archive::DeviceRow;
use bac_print::push_moment;
use bac_wire::Stamp;
use std::alloc::{AllocError, Global};

/// How many octets of a moment's text are its day.
const DAY: usize = 10;

// The day of a moment's text.
fn day_of(text: &[u8]) -> &[u8]
    ensures { result.now ≡ day_of text.now }
{
    match text.get(..DAY) {
        Some(day) => day,
        None => text,
    }
}

// Whether a device answered last on the day of this moment, as its row tells.
fn answered_on(alloc: Global, moment: Stamp, answered: &Option<String>) -> Result<bool, AllocError>
    ensures { IfOk result (λ on. on ≡ answered_on moment answered.now) }
{
    let Some(answered) = answered else {
        return Ok(false);
    };
    let mut text = Vec::new(alloc);
    push_moment(&mut text, moment.date(), moment.time())?;
    Ok(day_of(answered.as_bytes()) == day_of(text.as_slice()))
}

/// Whether the clock of the device of this row is asked for.
pub(crate) fn asks_clock(
    alloc: Global,
    options: &Options,
    device: &DeviceRow,
) -> Result<bool, AllocError>
    ensures { IfOk result (λ asks. asks ≡ asks_clock options.now device.now) }
{
    if !options.clocks {
        return Ok(false);
    }
    Ok(!answered_on(alloc, options.begun, &device.answered)?)
}
