//! The polls of many devices over one port, as a machine: who is asked next, what an answer makes
//! of whose poll, and what time makes of it. At each seat is the poll of a whole device: who it is,
//! its word, its clock, its Object_List, its names, and its trend logs, one after the other. It
//! sends and receives nothing itself, and knows of no archive but what it wants to be put.
#![tactic(auto)]

mod hosts;
mod laws;
mod limits;
mod moment;
mod news;
mod polling;
mod seat;
mod site;
mod status_laws;

pub use hosts::Host;
pub use laws::{
    all_have_ended, ask_in_turn, batches_come, batches_end, batches_within, begins_unasked,
    go_alone, keeps_to_limits, losses_bring_none, open_within, others_not_heeded, places_come_free,
    repeats_are_marked, sends_are_dated, site_rows_came, site_sends_ask, stays_within,
    strays_may_be, wants_within, within_limits,
};
pub use limits::Limits;
pub use news::News;
pub use polling::poll_devices;
pub use seat::Seat;
pub use site::SitePoller;
pub use status_laws::{ends_are_counted, status_never_falls};
