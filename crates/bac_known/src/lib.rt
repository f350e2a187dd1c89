//! What a client knows of a trend log, and what it reads of a reply: records as their rows have
//! them, what a device tells of itself, and what records say of those that are known. Each is a
//! value, and each function one of its arguments alone.
#![tactic(auto)]

mod ack;
mod date_time;
mod kept;
mod known;
mod numbers;
mod records;
mod stamps;
mod word;

pub use ack::{Reply, ack_of, is_of, says_last, says_more};
pub use date_time::DateTime;
pub use kept::{Kept, is_known, kept_of, kept_or};
pub use known::{
    Means, Shown, is_steady_with, means_of, number_in, record_at, records_behind, shown_as,
    shown_in,
};
pub use numbers::{
    before_last, distance, first_in, first_number, is_ahead, is_none, is_one, last_in,
    number_before, number_behind, number_or,
};
pub use records::{number_told, records_in};
pub use word::{Told, Word, is_other_word, is_retold, word_of};
