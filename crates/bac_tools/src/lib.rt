//! What the program `bac` does: the tool that its words name, over streams, sockets and a clock
//! that the caller hands in.
//!
//! [`run`] reads the words, does what they ask for and answers the exit status. What it asks over
//! the socket that it opens, and what it leaves on its output of what came, is stated tool by tool
//! in specs/Run, and the status of each end in specs/Status. What comes may come from anyone.
//!
//! The crate is the door of the program: scripts (bac_script), words (bac_command_line) and serving
//! (bac_serve) are reached from here.
#![tactic(auto)]

mod as_said;
mod asking;
mod fault;
mod finding;
mod flaw;
mod listing;
mod log_end;
mod playing;
mod program;
mod reason;
mod serving;
mod telling;
mod tips;
mod until_refused;

pub use bac_command_line::{
    Addresses, Asked, Check, Discovery, Extent, Given, Group, Groups, Job, Keep, KeepOptions, Kept,
    ListFault, LogListing, LogReading, Name, Names, Period, PropertyReading, PropertyWriting,
    ServedDevice, Stations, Word, WordsFault, read_words,
};
pub use bac_ports::{Heard, OpenFault, Port, SocketFault, Sockets, UdpPort, UdpSockets};
pub use bac_script::{
    Configuration, ConfigurationText, Flaw, LIMIT, LineKind, Reason, Refused, ReplayFault,
    UnfitLine, Wanted, read_configuration, read_configuration_explained, run_replay,
    run_replay_explained, unfit_line,
};
pub use bac_serve::{Clock, SystemClock, serve, serve_one};
pub use bac_socket_notes::{Heeding, Heeds, Passed};
pub use bac_walk::ReplyFlaw;
pub use fault::Fault;
pub use listing::listed_devices;
pub use program::{run, run_read};
pub use telling::{tell, tell_after};
pub use until_refused::UntilRefused;
