//! Laws of where a poll goes on. Each function does nothing: what it ensures is the law.

ghost use Rattle.bac_resume.specs.Laws.{FullGoesOnAtOne};
ghost use Rattle.bac_resume.specs.Laws.{GoesOnAnew, GoesOnBehindGap, GoesOnBehindRecords};
ghost use Rattle.bac_resume.specs.Laws.{GoesOnWhereItStopped, JoinsThere, KnownAreKept};
ghost use Rattle.bac_resume.specs.Laws.{NewestAreTold, NextIsNumber, NoneIsNewer};
ghost use Rattle.bac_resume.specs.Laws.{RestartIsReadBack};

/// Each record that is known of a log is one of its records in the archive, under its number.
pub fn known_are_kept()
    ensures { KnownAreKept }
{}

/// The items by which a poll goes on are the first three of its last epoch, by falling ids.
pub fn newest_are_told()
    ensures { NewestAreTold }
{}

/// No item of the epoch has a number behind that of the first of these.
pub fn none_is_newer()
    ensures { NoneIsNewer }
{}

/// The number that comes next is a sequence number.
pub fn next_is_number()
    ensures { NextIsNumber }
{}

/// Behind the last number of an epoch 1 comes next.
pub fn full_goes_on_at_one()
    ensures { FullGoesOnAtOne }
{}

/// What is put on record of a restart is read back.
pub fn restart_is_read_back()
    ensures { RestartIsReadBack }
{}

/// The poll that is made of what rows say stands where they say.
pub fn joins_there()
    ensures { JoinsThere }
{}

/// Where a poll stands by the newest items of its epoch, it stands so too behind the records that
/// it brings, once their rows are put.
pub fn goes_on_behind_records()
    ensures { GoesOnBehindRecords }
{}

/// What an archive tells, once they are put, is where the poll stood when it stopped.
pub fn goes_on_where_it_stopped()
    ensures { GoesOnWhereItStopped }
{}

/// And behind a gap.
pub fn goes_on_behind_gap()
    ensures { GoesOnBehindGap }
{}

/// And where an epoch begins.
pub fn goes_on_anew()
    ensures { GoesOnAnew }
{}
