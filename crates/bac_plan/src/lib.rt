//! What a run of keep begins with, as functions of what an archive tells.
//!
//! [`site_of`] makes the site that is polled, of what the archive tells alone (specs/Site): each
//! device that isn't stopped, with its trend logs, each from where its rows stand.
//! [`each_is_polled_once`] is the law that no log on record is left out, polled twice, or made up.
//! [`rows_named`] are the rows that are put so that what words name is on record (specs/Naming),
//! [`rows_stopped`] those by which it isn't asked any more (specs/Stopping).
#![tactic(auto)]

mod address;
mod changes;
mod clock;
mod fault;
mod fresh_device;
mod fresh_log;
mod groups;
mod laws;
mod logs;
mod named;
mod naming;
mod options;
mod poller;
mod rows;
mod site;
mod stopping;
mod texts;
mod way;
mod who;

pub use fault::{NamingFault, PlanFault, StopFault};
pub use laws::{
    device_ids_are_next, each_is_polled_once, fresh_logs_are_asked, log_ids_are_next,
    named_are_polled, named_are_stopped, named_are_told, named_logs_are_asked, others_go_on,
    others_stay, puts_keep_ids, stopped_are_told, told_have_own_ids,
};
pub use named::{Choice, Named};
pub use naming::rows_named;
pub use options::Options;
pub use site::site_of;
pub use stopping::rows_stopped;
