//! The program `bac`: all its tools, over sockets, files, streams and a clock that the caller hands
//! in.
//!
//! [`run`] reads the words, does what they ask for and answers the exit status. What each tool does
//! is stated by the job that the words are (specs/Run), from what the caller hands in to what it
//! leaves.
#![tactic(auto)]

mod keeping;
mod machine;
mod program;
mod reading;

pub use bac_files::{DiskFiles, FolderFiles, Parts};
pub use machine::{Console, Machine};
pub use program::run;
