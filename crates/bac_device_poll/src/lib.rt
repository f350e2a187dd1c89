//! What is asked of one device, and what each answer makes of it: a function of what is known of
//! the device. There is no socket here, no file and no clock.
//!
//! A [`DevicePoll`] asks first who answers, and compares it with the device on record; then for
//! the device's word, its clock, its Object_List and what its trend logs are; then it polls one log
//! behind the other, each as a `LogPoll`. [`DevicePoll::question`] is what is asked next;
//! [`DevicePoll::take`], [`DevicePoll::hear_i_am`], [`DevicePoll::hear_reject`] and
//! [`DevicePoll::lose`] are what comes of it. A [`Turn`] is what is put on record then, or told.
#![tactic(auto)]

mod clock;
mod identity;
mod laws;
mod listing;
mod logs;
mod loss;
mod naming;
mod poll;
mod question;
mod reject;
mod stage;
mod task;
mod turn;
mod word;

pub use bac_answers::{
    Entry, Naming, NoRoute, Offset, Others, Reference, Text, Way, Who, Whose, moment_in, restart_in,
};
pub use laws::{
    asks_again, asks_readings, keeps_no_other, losses_end_one, none_left_out, refusals_end_one,
    rejects_end_one, steps_are_counted,
};
pub use logs::Wanted;
pub use poll::{DevicePoll, Known};
pub use question::Question;
pub use stage::Stage;
pub use task::{Begin, LogTask, Polled};
pub use turn::{DeviceEnd, Step, Turn};
