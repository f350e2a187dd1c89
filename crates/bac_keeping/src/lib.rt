//! A run of keep over a database that is open. [`keep_site`] opens an archive, or makes one where
//! nothing is, puts on record what words name, makes a site of all that is on record, and polls
//! that to its end (specs/Keeping). [`stop_named`] stops what words name (specs/Stopping).
#![tactic(auto)]

mod keeping;
mod laws;
mod naming;
mod opening;
mod record_laws;
mod run;
mod stopping;

pub use keeping::keep_site;
pub use laws::{idle_asks_nobody, keep_loses_nothing};
pub use record_laws::{keep_names, keep_polls_all, keep_record, stop_loses_nothing, stop_stops};
pub use run::{KeepFault, Run};
pub use stopping::{StopHalt, Stopped, stop_named};
