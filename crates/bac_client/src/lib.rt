//! The client of a device: the walk of a trend log, single requests, links and ports.
//!
//!     let port = UdpPort::open(rt, [0; 6], 3000).ok()?; // any port of this machine, 3 s a wait
//!     let mut link = UdpLink::new(port, [192, 168, 1, 20, 0xba, 0xc0]); // the device, port 47808
//!     let mut transactions = Transactions::new(3); // asked once, and three times more
//!     let mut walk = Walk::from_number(ObjectId::new(20, 1)?, 5)?; // Trend Log 1, from number 5
//!     let outcome = collect(alloc, &mut link, &mut transactions, &mut walk, 1000);
//!     for item in outcome.items.iter() {
//!         match *item {
//!             Item::Gap { first, before } => {} // these are gone, up to the one before `before`
//!             Item::Logged { number, entry } => {} // its value is entry.datum
//!         }
//!     }
//!     // outcome.next is where the next walk begins, outcome.why is why this one ended
//!
//! This crate is the door: it has no code of its own, and re-exports what a tool needs. The walk is
//! of bac_walk, requests, transactions and links of bac_link, ports and links over them of
//! bac_ports, links in memory of bac_memory_link, and a network that repeats and reorders of
//! bac_world. What their calls take and answer comes with them.
#![tactic(auto)]

pub use bac_apdu::{Apdu, Extent, ReadProperty, ReadRange, Route, WriteProperty};
pub use bac_link::{
    Answer, ExchangeFault, Item, LogLink, Lost, Pending, Received, Refusal, Request, Timeout,
    Transactions, Verdict, answers, answers_tell_requests_apart, asks_tell_ours, calls_are_events,
    can_be_joined, can_be_resumed, delivers_each_once, exchange, judge, read_datagram,
};
pub use bac_log::{Datum, Entry};
pub use bac_memory_link::{
    DirectLink, LinkEvent, RoutedLink, device_answers_tell_ours, questions_are_the_devices,
    replies_are_the_devices, routed_asks_tell_ours, routers_hand_on_questions,
};
pub use bac_ports::{Heard, OpenFault, Port, SocketFault, UdpLink, UdpPort, exchanges_are_runs};
pub use bac_walk::{
    BadReply, Batch, Count, Ended, Gap, Numbered, Outcome, Progress, Sink, Step, Walk, WalkFault,
    Why, brought_goes_on, brought_is_delivered, brought_tells_why, came_is_delivered, collect,
    collected_is_delivered, deliver, honest_is_delivered, links_are_honest, lost_is_asked,
    moments_never_go_back, nothing_came, numbers_have_ordinals, ours_are_honest, own_is_said,
    replies_are_loggable, rest_resumes, rests_all, runs_deliver, runs_join,
    runs_stay_in_their_window, said_is_taken, said_means, stop_and_resume, windows_are_near,
};
pub use bac_wire::{Datagram, Date4, Full, ObjectId, Stamp, Time4, Value};
pub use bac_world::{
    Memory, Packet, Side, World, WorldEvent, packets_were_put, windows_stay_near, withstands_all,
    worlds_run_the_client,
};
