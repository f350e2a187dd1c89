//! Records of trend logs, kept once in a database file: format 3.
//!
//! An archive is a database of SQLite with five tables (specs/Schema): `archive` has the version of
//! the format and the moment at which the archive was made, `devices` and `logs` a row for each
//! device that is polled and each trend log that is kept, `items` one for each record or gap, whose
//! key tells the log, the epoch and the number, and `beginnings` one for each epoch of a log.
//!
//! One call writes: [`put`], all rows of a batch or none (specs/Put). Two tell: [`stands`], what
//! the file holds as a run begins (specs/Stands), and [`read_known`], what it has on record but its
//! items (specs/Known). [`open`] takes what is an archive, and refuses the rest by its reason
//! (specs/Archive); what a batch leaves is one if its items go on where their epochs stand
//! (specs/Keep). [`follow_on`] makes the next part of an archive that is full.
#![tactic(auto)]

mod asking;
mod creation;
mod ending;
mod following;
mod items;
mod known;
mod making;
mod opening;
mod putting;
mod reading;
mod row;
mod shape;
mod standing;

pub use following::{follow_on, part_is_archive, puts_of};
pub use items::{Item, Range, first_in, given_are_items, id_of, items_in, read_item};
pub use known::{Known, read_known};
pub use making::make;
pub use opening::{Refused, open, puts_keep_archive};
pub use putting::{put, puts_are_one};
pub use row::{BeginningRow, DeviceRow, ItemRow, LogRow, Put};
pub use shape::{is_archive, is_nothing, others_may_stand};
pub use standing::{Standing, stands};
