//! Laws of the whole program, in a user's words: each is proved from the contract of `run`, and
//! rests on few definitions, which can be read without those of `run`.
#![tactic(auto)]

mod each_tool;
mod laws;

pub use each_tool::{
    check_finds_each_number, kept_prints_its_rows, log_asks_few, logs_prints_what_came,
    replay_prints_its_script, rp_prints_what_came, serve_answers_only, sockets_can_be_captured,
    wi_prints_what_came, wp_writes_once,
};
pub use laws::{
    keep_adds_what_came, keep_only_reads, log_prints_what_came, loses_none, sends_only,
};
