//! The tool `keep`: the records of trend logs are kept in an archive, each once.
//!
//! [`run_keep`] does what the words of `bac keep` ask for, and [`run_stop`] what those of
//! `bac keep --stop` do: at the place of the archive, over a port that is opened for it, by
//! [`bac_historian`]. What halts a run is told (specs/Ends), and the rest is the exit status.
#![tactic(auto)]

mod archive_fault;
mod ends;
mod fault;
mod halts;
mod keeping;
mod laws;
mod lines;
mod machine;
mod places;
mod stopping;

pub use fault::Fault;
pub use keeping::run_keep;
pub use laws::{stop_loses_nothing, tool_loses_nothing};
pub use machine::Machine;
pub use stopping::run_stop;
