//! What a user of the program needs, proved from the contract of `run` and the laws of what it
//! names; what else is said of it is in bac_laws.
#![tactic(auto)]

mod callers;

pub use callers::{
    answer_words, check_archive, keep_and_check, keep_until_done, print_kept, stop_until_done,
};
