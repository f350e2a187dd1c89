//! Laws of exchanges over ports. Each function does nothing: what it ensures is the law.

ghost use Rattle.bac_ports.specs.Client.{ExchangesAreRuns};

use crate::port::Port;
use crate::udp_link::UdpLink;

/// An exchange over a port runs the client's events, and nothing else: it begins the request, each
/// datagram of the peer comes to it, and what it sends again after a time-out goes to the peer.
/// What the exchange returns is the verdict on the answer that the client took.
pub fn exchanges_are_runs<P: Port>()
    ensures { ExchangesAreRuns P.sends P.receives (λ (link : UdpLink P). link.port)
        (λ (link : UdpLink P). link.peer) }
{}
