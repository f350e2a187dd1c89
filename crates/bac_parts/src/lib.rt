//! Archives of format 3 in files and folders, opened and closed.
//!
//! [`open_file`] and [`close_file`] are of one file; [`open_archive`] takes what it holds as an
//! archive, and [`take_archive`] does without making one of an empty file. [`work_in`] opens a file
//! for one [`Work`], and closes it. [`begin_archive`] begins the next part of a folder, which
//! follows on the one before it. [`read_back`] and [`read_on`] read the parts of a folder one after
//! the other, as long as a [`Visitor`] wants one more. A file may have been written by anyone.
#![tactic(auto)]

mod archives;
mod begun;
mod fault;
mod parts;
mod works;

pub use archives::{close_file, open_archive, open_file, take_archive};
pub use begun::begin_archive;
pub use fault::FileFault;
pub use parts::{Visitor, read_back, read_on};
pub use works::{Done, Work, work_in};
