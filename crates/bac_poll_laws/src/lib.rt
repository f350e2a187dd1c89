//! What holds of the polls of trend logs, whatever is answered, and what they deliver where devices
//! say what their logs hold. Each function does nothing: what it ensures is a law of `bac_poll`.
#![tactic(auto)]

mod laws;

pub use laws::{
    asks_once_more, backwards_are_few, begins_standing, each_shown_once, empty_ends,
    epochs_are_whole, firsts_deliver, gaps_are_gone, held_is_kept, kept_is_logged,
    none_is_begun_again, polls_deliver, questions_are_bounded, questions_are_few,
    questions_by_held, questions_by_records, said_is_shown,
};
