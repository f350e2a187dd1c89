//! What is on the network.

use bac_wire::Datagram;

/// The end that a packet goes to.
#[derive(Clone, Copy, Debug, PartialEq, Eq)]
pub enum Side {
    Device,
    Client,
}

/// A datagram that was sent, the number of its transaction, the first of which is 1, and the end
/// that it goes to.
#[derive(Debug, Drop)]
pub struct Packet {
    pub transaction: u64,
    pub to: Side,
    pub datagram: Datagram,
}
