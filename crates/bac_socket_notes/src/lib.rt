//! Sockets that remember what came while an answer was waited for.
//!
//! [`Heeding`] sockets do what the sockets below them do. Each port that they open notes its last
//! question, how often it was sent, and what came since it was first sent: how many datagrams, and
//! who sent the last one and what it is (specs/Notes, specs/Contents). The sockets have the note of
//! the port that was closed last, so that who waited in vain can tell what came in place of an
//! answer: [`push_silence`] (specs/Silence).
#![tactic(auto)]

mod contents;
mod laws;
mod notes;
mod ports;
mod silence;
mod sockets;

pub use contents::{Content, Stray};
pub use laws::{asks_are_below, lost_has_strays, notes_are_of_events, strays_came};
pub use notes::{Note, Passed};
pub use ports::HeedingPort;
pub use silence::{push_rejected, push_silence};
pub use sockets::{Heeding, Heeds};
