//! A BACnet/IP device: it is built of lines, and answers datagrams.
//!
//!     let mut device = Device::build(alloc, &line, &lines).ok()?; // a DeviceLine, ObjectLines
//!     let Heard { from, datagram } = port.receive().ok()?; // a port, as bac_client has them
//!     let _ = device.advance(now); // each log that is due takes a sample
//!     let mut reply = Datagram::new();
//!     match device.answer_into(datagram?.octets(), &mut reply) {
//!         Some(Receiver::Sender) => port.send(reply.octets(), from).ok()?,
//!         Some(Receiver::Address(to)) => port.send(reply.octets(), to).ok()?, // Forwarded-NPDU
//!         None => {} // it isn't answered
//!     }
//!
//! [`Device::build`] makes a device of a [`DeviceLine`] and [`ObjectLine`]s, or tells the first
//! fault ([`BuildFault`]). [`Device::handle`] takes a datagram and gives the [`Reply`], if there is
//! one; [`Device::answer_into`] writes the same reply into a datagram of the caller.
//! [`Device::sample`] takes a sample, [`Device::advance`] sets the clock, and [`Device::run`] takes
//! a slice of such [`Event`]s. Contracts see a device as the record `State` of bac_objects, and
//! each call is a function of it: specs/Answer says what is answered and which state is left,
//! specs/Clock what the passing of time does, specs/Run what events do one after the other.
//!
//! A datagram goes through Annex J (specs/Receiving, frames and the functions that a device
//! refuses), clause 6 (network headers), clause 20.1 (APDUs) and one service of clauses 15 and 16;
//! objects and properties are in bac_objects below. Nothing is segmented, and what a device doesn't
//! hear it doesn't answer.
#![tactic(auto)]

mod device;
mod handle;
mod laws;
mod logs;
mod receiving;
mod reply;
mod run;
mod service;
mod ways;

pub use bac_objects::{
    BuildFault, DeviceLine, LineId, Misfit, Name, ObjectLine, SampleFault, misfit,
};
pub use device::{ClockBack, Device};
pub use laws::{
    accepted_writes_stand, acks_are_read_back, built_objects_are_commanded,
    object_list_keeps_the_order_of_lines, reads_are_answered, refusals_change_nothing,
    runs_are_joined, writes_are_answered,
};
pub use logs::{
    built_devices_have_logs, logs_move_by_steps, other_writes_leave_logs, questions_are_answered,
    questions_for_no_log_are_refused, read_ranges_are_not_aborted, records_fit, samples_append,
    ticks_append,
};
pub use reply::{Receiver, Reply};
pub use run::{Event, Outcome};
pub use ways::{
    replies_go_back, routed_headers_are_short, ways_change_nothing, what_is_not_heard_is_dropped,
};
