//! Ports that datagrams come from and go to, and links over them.
//!
//! A [`Port`] sends and receives datagrams: [`UdpPort`] is one over a socket of the system.
//! [`Sockets`] open ports: [`UdpSockets`] are the system's. A [`UdpLink`] is a link to one peer
//! over any port: it sends a request once and takes the first datagram from the peer that answers
//! it (specs/Asking). Nothing is claimed of what a socket gives, so a [`UdpLink`] isn't claimed to
//! be ours for any log.
#![tactic(auto)]

mod laws;
mod port;
mod sockets;
mod udp_link;
mod udp_port;

pub use laws::exchanges_are_runs;
pub use port::{Heard, OpenFault, Port, SocketFault};
pub use sockets::{Sockets, UdpSockets};
pub use udp_link::{RECEIVES, UdpLink};
pub use udp_port::UdpPort;
