//! A port that notes what comes while an answer is waited for.

ghost use Rattle.std.specs.Prelude.{◌≡◌};
ghost use Rattle.bac_socket_notes.specs.Notes.{after_receive, after_send, no_note};

use crate::notes::Note;
use bac_ports::{Heard, Port, SocketFault};
use bac_wire::Address;

/// A port, and its note.
#[derive(Drop)]
pub struct HeedingPort<P> {
    pub(crate) port: P,
    pub(crate) note: Note,
}

impl<P> HeedingPort<P> {
    /// This port, over which nothing was sent yet.
    pub(crate) fn new(port: P) -> HeedingPort<P>
        ensures port { result.port ≡ port }
        ensures note { result.note ≡ no_note }
    {
        HeedingPort {
            port,
            note: Note::new(),
        }
    }
}

impl<P: Port> Port for HeedingPort<P> {
    // What the port below sends, and that is noted.
    ghost sends = { λ old octets to answer new. P.sends old.port octets to answer new.port
        × (new.note ≡ after_send octets to answer old.note) };

    // What the port below receives, and that is noted.
    ghost receives = { λ old answer new. P.receives old.port answer new.port
        × (new.note ≡ after_receive answer old.note) };

    ghost receives_within = { λ old wait answer new. P.receives_within old.port wait answer new.port
        × (new.note ≡ after_receive answer old.note) };

    fn send(&mut self, octets: &[u8], to: Address) -> Result<(), SocketFault> {
        let sent = self.port.send(octets, to);
        self.note.send(octets, to, &sent);
        sent
    }

    fn receive(&mut self) -> Result<Heard, SocketFault> {
        let received = self.port.receive();
        self.note.receive(&received);
        received
    }

    fn receive_within(&mut self, wait_ms: u32) -> Result<Heard, SocketFault> {
        let received = self.port.receive_within(wait_ms);
        self.note.receive(&received);
        received
    }
}
