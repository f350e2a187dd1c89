//! What holds of a device's poll, whoever answers.

ghost use Rattle.bac_device_poll.specs.Laws.{AsksAgain, AsksReadings, KeepsNoOther};
ghost use Rattle.bac_device_poll.specs.Laws.{LossesEndOne, NoneLeftOut, RefusalsEndOne};
ghost use Rattle.bac_device_poll.specs.Laws.{RejectsEndOne, StepsAreCounted};

/// A device is asked by ReadProperty, ReadRange and Who-Is alone.
pub fn asks_readings()
    ensures { AsksReadings }
{}

/// Nothing of a device that isn't the one on record is kept.
pub fn keeps_no_other()
    ensures { KeepsNoOther }
{}

/// No log of a device is left out, whatever comes of its questions: at the end the poll of each has
/// ended, or it was told as not asked.
pub fn none_left_out()
    ensures { NoneLeftOut }
{}

/// A log has no more replies with records in a run than it may.
pub fn steps_are_counted()
    ensures { StepsAreCounted }
{}

/// A refusal ends what was asked, or is asked again if it passes, and all else is as it was.
pub fn refusals_end_one()
    ensures { RefusalsEndOne }
{}

/// A question that isn't answered, before the logs of a device are polled, ends what was asked, and
/// all else is as it was; of two in a row the device is silent, where a list and its length are
/// one.
pub fn losses_end_one()
    ensures { LossesEndOne }
{}

/// Behind a question that isn't answered about a list, or about what a log is, no revision is put
/// on record in the run, so that the next run asks again.
pub fn asks_again()
    ensures { AsksAgain }
{}

/// The rejection of a router that has no route to a device's network ends its poll at once.
pub fn rejects_end_one()
    ensures { RejectsEndOne }
{}
