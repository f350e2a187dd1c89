//! The clock of a device, beside this machine's.

ghost use Rattle.std.specs.Prelude.{◌≡◌, SomeIff};
ghost use Rattle.bac_wire.specs.Stamp.{IsCivilTime};
ghost use Rattle.bac_answers.specs.Clock.{AreApart, IsOffset, shown};

use crate::entry::Offset;
use bac_wire::{Date4, Stamp, Time4};

/// The year from which a Date counts (clause 20.2.12).
const FIRST_YEAR: u16 = 1900;

// The moment that a date and time show, if they show one.
fn shown(date: Date4, time: Time4) -> Option<Stamp>
    ensures { SomeIff result (IsCivilTime (shown date time)) (shown date time) }
{
    Stamp::new(
        FIRST_YEAR + u16::from(date.year),
        date.month,
        date.day,
        time.hour,
        time.minute,
        time.second,
        time.hundredth,
    )
}

// How far a moment that a device shows lies from this machine's.
fn offset_of(at: Stamp, now: Stamp) -> Offset
    ensures { AreApart at now result }
{
    let device = at.ticks() / 100;
    let machine = now.ticks() / 100;
    if machine <= device {
        Offset::Ahead(device - machine)
    } else {
        Offset::Behind(machine - device)
    }
}

/// A device's clock beside this machine's; none, if what it shows is no moment.
pub fn offset(date: Date4, time: Option<Time4>, now: Stamp) -> Option<Offset>
    ensures { IsOffset date time now result }
{
    match time {
        Some(time) => match shown(date, time) {
            Some(at) => Some(offset_of(at, now)),
            None => None,
        },
        None => None,
    }
}
