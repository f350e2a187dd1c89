//! What is told of an archive, in other words.

ghost use Rattle.bac_check.specs.Lines.{HolesAreMissing};
ghost use Rattle.bac_check.specs.Whole.{WholeHasEach};

/// What is told as the holes of an epoch is what is missing: a number that is in no row and before
/// one that is, and not before the beginning of the epoch.
pub fn holes_are_missing()
    ensures { HolesAreMissing }
{}

/// Where nothing is told to be missing, no epoch is gone, and each number of an epoch is in one
/// row: from its beginning on, up to the last that is in a row.
pub fn whole_has_each()
    ensures { WholeHasEach }
{}
