//! A port that tells each datagram.

ghost use Rattle.std.specs.Prelude.{◌≡◌, ℕ, List, IfOk, Ok, true};
ghost use Rattle.bac_trace.specs.Lines.{came_line, received_line, sent_line};
ghost use Rattle.bac_trace.specs.Traces.{Tells, TellsOr, told};

use crate::lines::{came_line, sent_line};
use bac_ports::{Heard, Port, SocketFault};
use bac_print::write_text;
use bac_wire::Address;
use std::alloc::{AllocError, Global};
use std::io::Write;

/// Where lines go, as long as it is on. It is off after a line that the writer refused, or that
/// there was no memory for.
#[derive(Drop)]
pub(crate) struct Trace<T> {
    alloc: Global,
    writer: T,
    is_on: bool,
}

/// Writes a line; whether the writer took it.
fn write_line<T: Write>(writer: &mut T, line: &[u8]) -> bool
    ensures { TellsOr result line.now (T.contents writer.old) (T.contents writer.new) }
{
    write_text(writer, line).is_ok() && writer.flush().is_ok()
}

impl<T: Write> Trace<T> {
    /// Lines go to this writer.
    pub(crate) fn new(alloc: Global, writer: T, is_on: bool) -> Trace<T>
        ensures { result.is_on ≡ is_on }
    {
        Trace {
            alloc,
            writer,
            is_on,
        }
    }

    /// Tells a line, if there was memory for it.
    fn tell(&mut self, line: Result<Vec<u8>, AllocError>)
        requires { self.old.is_on ≡ true }
        ensures { (text : List ℕ) → IfOk line (λ l. l.items ≡ text)
            → Tells text (told self.old.is_on (T.contents self.old.writer))
            (told self.new.is_on (T.contents self.new.writer)) }
    {
        match line {
            Ok(line) => self.is_on = write_line(&mut self.writer, line.as_slice()),
            Err(AllocError) => self.is_on = false,
        }
    }

    /// Tells a datagram that was sent to an address.
    fn tell_sent(&mut self, octets: &[u8], to: Address)
        ensures { Tells (sent_line octets.now to (Ok tt))
            (told self.old.is_on (T.contents self.old.writer))
            (told self.new.is_on (T.contents self.new.writer)) }
    {
        if self.is_on {
            let line = sent_line(self.alloc, octets, to);
            self.tell(line);
        }
    }

    /// Tells a datagram that came.
    fn tell_came(&mut self, heard: &Heard)
        ensures { Tells (came_line heard.now.from heard.now.datagram)
            (told self.old.is_on (T.contents self.old.writer))
            (told self.new.is_on (T.contents self.new.writer)) }
    {
        if self.is_on {
            let line = came_line(self.alloc, heard);
            self.tell(line);
        }
    }

    /// Tells what was received; where nothing came, nothing.
    fn tell_received(&mut self, received: &Result<Heard, SocketFault>)
        ensures { Tells (received_line received.now)
            (told self.old.is_on (T.contents self.old.writer))
            (told self.new.is_on (T.contents self.new.writer)) }
    {
        if let Ok(heard) = received {
            self.tell_came(heard);
        }
    }
}

/// A port, and where its datagrams are told.
#[derive(Drop)]
pub struct TracedPort<P, T> {
    pub(crate) port: P,
    pub(crate) trace: Trace<T>,
}

impl<P: Port, T: Write> Port for TracedPort<P, T> {
    // What the port below sends, and the line of it.
    ghost sends = { λ old octets to answer new. P.sends old.port octets to answer new.port
        × Tells (sent_line octets to answer) (told old.trace.is_on (T.contents old.trace.writer))
        (told new.trace.is_on (T.contents new.trace.writer)) };

    // What the port below receives, and the line of it.
    ghost receives = { λ old answer new. P.receives old.port answer new.port
        × Tells (received_line answer) (told old.trace.is_on (T.contents old.trace.writer))
        (told new.trace.is_on (T.contents new.trace.writer)) };

    ghost receives_within = { λ old wait answer new. P.receives_within old.port wait answer new.port
        × Tells (received_line answer) (told old.trace.is_on (T.contents old.trace.writer))
        (told new.trace.is_on (T.contents new.trace.writer)) };

    fn send(&mut self, octets: &[u8], to: Address) -> Result<(), SocketFault> {
        match self.port.send(octets, to) {
            Ok(()) => {
                self.trace.tell_sent(octets, to);
                Ok(())
            }
            Err(fault) => Err(fault),
        }
    }

    fn receive(&mut self) -> Result<Heard, SocketFault> {
        let received = self.port.receive();
        self.trace.tell_received(&received);
        received
    }

    fn receive_within(&mut self, wait_ms: u32) -> Result<Heard, SocketFault> {
        let received = self.port.receive_within(wait_ms);
        self.trace.tell_received(&received);
        received
    }
}
