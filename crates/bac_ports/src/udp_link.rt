//! Links over ports.

ghost use Rattle.std.specs.Prelude.{◌≡◌, ◌≤◌, OnErr, OnOk, refl};
ghost use Rattle.std.proofs.Common.{◌∙◌};
ghost use Rattle.bac_link.specs.Links.{RisesBy};
ghost use Rattle.bac_ports.specs.Asking.{Asks, Awaits, fitting, to_peer};

use crate::port::{Heard, Port, SocketFault};
use bac_link::{LogLink, Lost, answers};
use bac_wire::{Address, Datagram};

/// How many datagrams an ask takes before it gives up.
pub const RECEIVES: u32 = 16;

/// A link to one peer over a port. An ask sends the request once, and passes over datagrams from
/// others and those that don't answer it.
///
/// It isn't claimed to be ours for any log: whoever can send datagrams with the peer's address
/// answers in its place.
#[derive(Debug, Drop)]
pub struct UdpLink<P> {
    port: P,
    peer: Address,
    failures: u64,
}

impl<P: Port> UdpLink<P> {
    /// A link to the device at an address.
    pub fn new(port: P, peer: Address) -> UdpLink<P>
        ensures port { result.port ≡ port }
        ensures peer { result.peer ≡ peer }
        ensures failures { result.failures ≡ 0 }
    {
        UdpLink {
            port,
            peer,
            failures: 0,
        }
    }

    /// The port as the asks left it, to be closed.
    pub fn into_port(self) -> P
        ensures { result ≡ self.port }
    {
        self.port
    }

    /// The first half of an ask: sends a request to the peer, once, and waits for nothing.
    pub fn send(&mut self, request: &[u8]) -> Result<(), SocketFault>
        ensures sends { P.sends self.old.port request.now self.old.peer result self.new.port }
        ensures peer { self.new.peer ≡ self.old.peer }
        ensures never_falls { self.old.failures ≤ self.new.failures }
        ensures fails { OnErr result (RisesBy 1 self.old.failures self.new.failures) }
        ensures stays { OnOk result (self.new.failures ≡ self.old.failures) }
    {
        let sent = self.port.send(request, self.peer);
        if sent.is_err() {
            self.failures = self.failures.saturating_add(1);
        }
        sent
    }

    /// The other half: waits for the answer to a request that was sent.
    pub fn hear(&mut self, request: &[u8]) -> Result<Datagram, Lost>
        ensures awaits { Awaits P.receives self.old.peer request.now 16 self.old.port result
            self.new.port }
        ensures peer { self.new.peer ≡ self.old.peer }
        ensures never_falls { self.old.failures ≤ self.new.failures }
        ensures fails { OnErr result (RisesBy 1 self.old.failures self.new.failures) }
        ensures stays { OnOk result (self.new.failures ≡ self.old.failures) }
    {
        let answer = wait_for(&mut self.port, self.peer, request, RECEIVES);
        if answer.is_err() {
            self.failures = self.failures.saturating_add(1);
        }
        answer
    }
}

impl<P: Port> LogLink for UdpLink<P> {
    ghost failures = { λ link. link.failures };

    ghost is_ours = { λ link id r M H. ⊥ };

    ghost lacks = { λ link id. ⊥ };

    ghost is_sure = { λ link path. ⊥ };

    ghost keeps = { λ a b. a ≡ b };

    // One send to the peer, and then at most 16 receives, up to the first datagram that is from the
    // peer and answers the request.
    ghost asks = { λ old octets answer new. Asks P.sends P.receives (to_peer old.peer octets) 16
        old.port answer new.port × (new.peer ≡ old.peer) };

    fn ask(&mut self, request: &[u8]) -> Result<Datagram, Lost>
        ensures never_falls { self.old.failures ≤ self.new.failures }
        ensures lost { OnErr result (RisesBy 1 self.old.failures self.new.failures) }
        ensures stays { OnOk result (self.new.failures ≡ self.old.failures) }
        ensures peer { self.new.peer ≡ self.old.peer }
        ensures asks { Asks P.sends P.receives (to_peer self.old.peer request.now) 16
            self.old.port result
            self.new.port }
    {
        match self.send(request) {
            Ok(()) => self.hear(request),
            Err(_) => Err(Lost),
        }
    }

    ghost serves = { λ link id r M H h. absurd h };

    ghost tells_ours = { λ old new octets answer id r M H extent path invoke h is asked. absurd h };

    ghost keeps_itself = { λ link. refl };

    ghost keeps_on = { λ a b c h k. h ∙ k };
}

#[tactic(auto, unfolding(crate::specs::Asking::Awaits))]
fn wait_for<P: Port>(
    port: &mut P,
    peer: Address,
    request: &[u8],
    limit: u32,
) -> Result<Datagram, Lost>
    ensures { Awaits P.receives peer request.now limit port.old result port.new }
{
    for tried in 0..limit {
        match port.receive() {
            Ok(heard) => {
                if let Some(datagram) = fitting(heard, peer, request) {
                    return Ok(datagram);
                }
            }
            Err(_) => return Err(Lost),
        }
    }
    Err(Lost)
}

/// The datagram, if it comes from the peer and answers the request.
fn fitting(heard: Heard, peer: Address, request: &[u8]) -> Option<Datagram>
    ensures { result ≡ fitting peer request.now heard }
{
    let Heard { from, datagram } = heard;
    let datagram = datagram?;
    if from == peer && answers(request, datagram.octets()) {
        Some(datagram)
    } else {
        None
    }
}
