//! Epochs that are gone, though later ones of their log have rows.

ghost use Rattle.std.specs.Prelude.{◌≡◌};
ghost use Rattle.bac_check.specs.Lines.{behind, from_before, has_lost, is_gone};

use crate::course::Course;
use crate::joins::{any_later, log_of};

/// Whether an epoch has no row, though it didn't begin by the log's count alone, and a later one
/// has rows.
pub(crate) fn is_gone(courses: &[Course], course: &Course) -> bool
    ensures { result ≡ is_gone courses.now course.now }
{
    course.tally.is_none() && !course.begun.by_count && any_later(courses, course.begun.id)
}

/// The id behind an epoch, if it is of the same log as this one and before it, or what was found
/// before.
fn behind(course: &Course, id: u32, found: u32) -> u32
    ensures { result ≡ behind id found course.now }
{
    let other = course.begun.id;
    if log_of(other) == log_of(id) && other < id {
        return found.max(other + 1);
    }
    found
}

/// The id behind the last epoch on record that is of the same log and before this one; 0, if none
/// is.
pub(crate) fn from_before(courses: &[Course], id: u32) -> u32
    ensures { result ≡ from_before courses.now id }
{
    let mut found = 0;
    for course in courses {
        found = behind(course, id, found);
    }
    found
}

/// Whether there are epochs between that one and this one, of which nothing is on record, and this
/// one or a later one has rows.
pub(crate) fn has_lost(courses: &[Course], course: &Course) -> bool
    ensures { result ≡ has_lost courses.now course.now }
{
    let from = from_before(courses, course.begun.id);
    0 < from
        && from < course.begun.id
        && (course.tally.is_some() || any_later(courses, course.begun.id))
}
