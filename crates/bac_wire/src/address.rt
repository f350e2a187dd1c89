//! Addresses of BACnet/IP.

/// A BACnet/IP address (Annex J.1.2): four octets of an IPv4 address, and two of a UDP port, high
/// octet first.
pub type Address = [u8; 6];
