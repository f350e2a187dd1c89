//! Links to a device in memory.
//!
//! [`DirectLink`] is a link straight to a [`Device`](bac_device::Device) in memory, at which events
//! happen between the answers. It is ours for each trend log of the device, at the moments that
//! the events lead to: specs/Ahead says which these are, specs/Events what an event does.
//! [`RoutedLink`] puts a router in front of any link.
#![tactic(auto)]

mod direct_link;
mod event;
mod laws;
mod routed_link;

pub use direct_link::DirectLink;
pub use event::LinkEvent;
pub use laws::{
    device_answers_tell_ours, questions_are_the_devices, replies_are_the_devices,
    routed_asks_tell_ours, routers_hand_on_questions,
};
pub use routed_link::RoutedLink;
