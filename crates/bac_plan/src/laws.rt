//! Laws of what a run begins with. Each function does nothing: what it ensures is the law.

ghost use Rattle.bac_plan.specs.Laws.{EachIsPolledOnce};
ghost use Rattle.bac_plan.specs.NamingLaws.{DeviceIdsAreNext, LogIdsAreNext};
ghost use Rattle.bac_plan.specs.NamingLaws.{FreshLogsAreAsked, NamedArePolled, NamedLogsAreAsked};
ghost use Rattle.bac_plan.specs.NamingLaws.{OthersStay};
ghost use Rattle.bac_plan.specs.StoppingLaws.{NamedAreStopped, OthersGoOn};
ghost use Rattle.bac_plan.specs.Told.{NamedAreTold, PutsKeepIds, PutsKeepRise, StoppedAreTold};
ghost use Rattle.bac_plan.specs.Told.{ToldHaveOwnIds};

/// Every log on record that isn't stopped, of a device that isn't, is polled in exactly one place,
/// at the seat of its device; and no other log is polled.
pub fn each_is_polled_once()
    ensures { EachIsPolledOnce }
{}

/// Each device that words name is on record once the rows of [`rows_named`](crate::rows_named) are
/// put, isn't stopped, and is kept whole if it is named so.
pub fn named_are_polled()
    ensures { NamedArePolled }
{}

/// A device or a log that no words name gets no row.
pub fn others_stay()
    ensures { OthersStay }
{}

/// A log that words name for itself is on record then, and isn't stopped, if its device was on
/// record.
pub fn named_logs_are_asked()
    ensures { NamedLogsAreAsked }
{}

/// And so is one of a device on record or a new one, if it wasn't on record itself.
pub fn fresh_logs_are_asked()
    ensures { FreshLogsAreAsked }
{}

/// New devices have the ids that come next, one after the other, up to 65535.
pub fn device_ids_are_next()
    ensures { DeviceIdsAreNext }
{}

/// And so have new logs.
pub fn log_ids_are_next()
    ensures { LogIdsAreNext }
{}

/// A device that words name with all of its logs is stopped once the rows of
/// [`rows_stopped`](crate::rows_stopped) are put, and so is each log that they name.
pub fn named_are_stopped()
    ensures { NamedAreStopped }
{}

/// A device that no words name gets no row by which it is stopped, and none of its logs does.
pub fn others_go_on()
    ensures { OthersGoOn }
{}

/// The rows of devices, and those of logs, rise by their ids as SQLite keeps them, whatever is put;
/// so no two devices that an archive tells have one id.
pub fn told_have_own_ids()
    ensures told { ToldHaveOwnIds }
    ensures rise { PutsKeepRise }
{}

/// Each device and each log that is on record stays under its id, whatever is put.
pub fn puts_keep_ids()
    ensures { PutsKeepIds }
{}

/// Once the rows of [`rows_named`](crate::rows_named) are put, an archive tells each device and
/// each log as the words leave it, and those that are new.
pub fn named_are_told()
    ensures { NamedAreTold }
{}

/// Once the rows of [`rows_stopped`](crate::rows_stopped) are put, it tells each device and each
/// log as it is stopped, and the others as they were.
pub fn stopped_are_told()
    ensures { StoppedAreTold }
{}
