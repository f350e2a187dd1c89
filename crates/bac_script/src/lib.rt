//! Scripts and configurations, over readers and writers that a contract can name.
//!
//! [`run_replay`] plays a script: each line is a device to describe or a datagram that it receives,
//! and what it answers is written. The text that a script makes is stated in specs/Replay, line by
//! line from specs/Session, and `run_replay` is proved to write that text and nothing else, also
//! when the reader, the writer or memory refuses ([`ReplayFault`]).
//!
//! `script` reads: a script is cut into lines, and `Line::read` tells what a line says, apart from
//! what the lines before it have made. `replay` plays: a session holds what the lines so far have
//! made, and answers what one more prints. The device itself is in the crate bac_device, the
//! program's words in bac_command_line, its tools in bac_tools.
#![tactic(auto)]

mod configuration;
mod laws;
mod replay;
mod script;

pub use configuration::{
    Configuration, ConfigurationText, read_configuration, read_configuration_explained,
};
pub use laws::{lines_in_the_wrong_place_are_lines, texts_are_joined};
pub use replay::fault::{Reason, Refused, ReplayFault, UnfitLine};
pub use replay::input::{Ending, fill};
pub use replay::mending::unfit_line;
pub use replay::{LIMIT, run_replay, run_replay_explained};
pub use script::flaw::{Flaw, LineKind, Wanted};
