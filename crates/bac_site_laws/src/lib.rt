//! What the polls of a site put of its trend logs: whose rows they are, and what those say. Each
//! function does nothing: what it ensures is a law of `bac_site_poller`.
#![tactic(auto)]

mod laws;

pub use laws::{
    batched_rows_are_own, gaps_are_told, keeps_turns, numbers_once, rows_are_logged, rows_are_own,
    rows_are_told, rows_go_on,
};
