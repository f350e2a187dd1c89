//! A port over which invoke IDs go on.

ghost use Rattle.std.specs.Prelude.{◌≡◌};
ghost use Rattle.bac_wire.specs.Chain.{result_map};
ghost use Rattle.bac_invoke_ids.specs.Onward.{ReceivesOnward, SendsOnward, behind, heard_by};

use crate::ids::{Ids, question_in, sent_by};
use bac_ports::{Heard, Port, SocketFault};
use bac_wire::Address;

/// A port, and the invoke IDs of what is asked over it.
#[derive(Drop)]
pub struct OnwardPort<P> {
    pub(crate) port: P,
    pub(crate) ids: Ids,
}

impl<P> OnwardPort<P> {
    /// This port, over which nothing was asked yet, behind a question with this ID.
    pub(crate) fn new(port: P, last: u8) -> OnwardPort<P>
        ensures port { result.port ≡ port }
        ensures ids { result.ids ≡ behind last }
    {
        OnwardPort {
            port,
            ids: Ids::behind(last),
        }
    }

    /// What came, with the ID of what was asked.
    fn heard(&self, received: Result<Heard, SocketFault>) -> Result<Heard, SocketFault>
        ensures { result ≡ result_map (heard_by self.now.ids.shift) received }
    {
        let mut heard = received?;
        if let Some(datagram) = &mut heard.datagram {
            self.ids.take(datagram);
        }
        Ok(heard)
    }
}

impl<P: Port> Port for OnwardPort<P> {
    // The first question has the ID behind the last one over the port that was closed before, and
    // the others are as far behind it as they were.
    ghost sends = { λ old octets to sent new. SendsOnward P.sends old octets to sent new };

    // An answer has the ID of what was asked.
    ghost receives = { λ old heard new. ReceivesOnward P.receives old heard new };

    ghost receives_within = { λ old wait heard new.
        ReceivesOnward (λ a received b. P.receives_within a wait received b) old heard new };

    fn send(&mut self, octets: &[u8], to: Address) -> Result<(), SocketFault> {
        match question_in(octets) {
            Some(id) => {
                let shift = self.ids.ask(id.id);
                self.port.send(sent_by(octets, id, shift).octets(), to)
            }
            None => self.port.send(octets, to),
        }
    }

    fn receive(&mut self) -> Result<Heard, SocketFault> {
        let received = self.port.receive();
        self.heard(received)
    }

    fn receive_within(&mut self, wait_ms: u32) -> Result<Heard, SocketFault> {
        let received = self.port.receive_within(wait_ms);
        self.heard(received)
    }
}
