//! Sockets over which invoke IDs go on.
//!
//! Who asks a device over a socket begins with invoke ID 1, and so does who asks it over the next
//! one. Where both have one address, as `--local` names it, an answer that comes late, or twice,
//! would answer a question over the next socket that has the same ID (clause 5.4.4). Over
//! [`Onward`] sockets it doesn't: what is asked over a port is sent with the IDs behind the last
//! one that was sent over the port that was closed before, and its answers come with the IDs of
//! what was asked (specs/Onward). Nothing else of a datagram changes. Ports that are open at once
//! have addresses of their own, and may have the same IDs.
#![tactic(auto)]

mod ids;
mod laws;
mod ports;
mod sockets;

pub use ids::{Ids, InvokeId};
pub use laws::{
    answers_say_the_same, answers_stay, asks_are_below, late_answers_are_none, questions_go_on,
    questions_stay, several_go_on,
};
pub use ports::OnwardPort;
pub use sockets::Onward;
