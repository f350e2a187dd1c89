//! The walk of a trend log: which question comes next, what an answer brings, and what is
//! delivered.
//!
//! A [`Walk`] is a place in a log. It asks for the records from its next number on, and if none of
//! them is held, for the oldest ([`Walk::question`], [`Walk::take`], [`Walk::step`]). [`deliver`]
//! puts record after record into a [`Sink`], with a gap before each that doesn't follow its
//! predecessor; [`collect`] keeps them. Over a link of ours they deliver exactly the records that
//! the log holds when each is reached, each once, in rising order.
#![tactic(auto)]

mod batch;
mod count;
mod flaw;
mod kept;
mod laws;
mod outcome;
mod read;
mod reply;
mod resume;
mod sink;
mod step;
mod walk;

pub use bac_link::links_are_honest;
pub use batch::{Batch, Gap, Numbered};
pub use count::Count;
pub use flaw::ReplyFlaw;
pub use kept::collect;
pub use laws::{
    bad_replies_have_flaws, brought_goes_on, brought_is_delivered, brought_tells_why,
    came_is_delivered, collected_is_delivered, flaws_are_refused, growing_is_delivered,
    honest_is_delivered, late_replies_are_left, lost_is_asked, moments_never_go_back, nothing_came,
    numbers_have_ordinals, ours_are_honest, ours_stay_honest, own_is_said, replies_answer,
    replies_are_loggable, rest_resumes, rests_all, runs_deliver, runs_join,
    runs_stay_in_their_window, said_is_taken, said_means, transacted_is_bounded,
    transacted_is_brought, windows_are_near,
};
pub use outcome::{BadReply, Ended, Outcome, Progress, Step, WalkFault, Why};
pub use resume::stop_and_resume;
pub use sink::{Sink, deliver};
pub use walk::Walk;
