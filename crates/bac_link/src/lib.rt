//! Confirmed requests, their transactions, and links that carry them (clause 5.4).
//!
//! [`Transactions`] keeps one request open at a time: `begin` gives its datagram, `receive` takes
//! the datagram that [`answers`] it, `timeout` gives the same octets again. A [`LogLink`] carries a
//! datagram and brings one back, or loses either; [`exchange`] sends a request over any link until
//! an answer comes, and gives the ACK that belongs to it.
//!
//! What a walk of a trend log delivers is said here too, on lists alone, since it is said of the
//! answers that a link brings: specs/Delivery is the file to read first, and the laws of
//! [`can_be_resumed`] and [`delivers_each_once`] are true of all that is so delivered.
#![tactic(auto)]

mod answer;
mod exchanges;
mod item;
mod laws;
mod link;
mod request;
mod transactions;

pub use answer::{Answer, answers, read_datagram};
pub use exchanges::{ExchangeFault, Refusal, Verdict, exchange, judge};
pub use item::Item;
pub use laws::{
    answers_tell_requests_apart, asks_tell_ours, calls_are_events, can_be_joined, can_be_resumed,
    delivers_each_once, histories_go_on, links_are_honest, links_stay_honest,
};
pub use link::{LogLink, Lost};
pub use request::Request;
pub use transactions::{Pending, Received, Timeout, Transactions};
