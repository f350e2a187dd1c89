//! What a port notes of its last question.

ghost use Rattle.std.specs.Prelude.{◌≡◌};
ghost use Rattle.bac_socket_notes.specs.Notes.{after_receive, after_send, heard_too, is_again};
ghost use Rattle.bac_socket_notes.specs.Notes.{no_note, nothing, one_more, tried};

use crate::contents::Stray;
use bac_ports::{Heard, RECEIVES, SocketFault};
use bac_wire::{Address, Datagram};

/// What passed since a question was first sent. Each count goes up to 4294967295.
#[derive(Clone, Copy, Debug, PartialEq, Eq)]
pub struct Passed {
    /// How often it was sent.
    pub tries: u32,
    /// How often it couldn't be sent.
    pub unsent: u32,
    /// How many datagrams came.
    pub came: u32,
    /// How many of them came since it was last sent.
    pub in_try: u32,
    /// How many tries 16 datagrams came to, which is what a try takes at most.
    pub full: u32,
    /// The last datagram that came.
    pub last: Option<Stray>,
}

/// One more, if there is more.
fn one_more(n: u32) -> u32
    ensures { result ≡ one_more n }
{
    if n < u32::MAX { n + 1 } else { u32::MAX }
}

impl Passed {
    /// Nothing was sent, and nothing came.
    pub fn nothing() -> Passed
        ensures { result ≡ nothing }
    {
        Passed {
            tries: 0,
            unsent: 0,
            came: 0,
            in_try: 0,
            full: 0,
            last: None,
        }
    }

    /// The question is sent once more, or can't be.
    fn try_more(&mut self, sent: &Result<(), SocketFault>)
        ensures { self.new ≡ tried sent.now self.old }
    {
        match sent {
            Ok(()) => self.tries = one_more(self.tries),
            Err(_) => self.unsent = one_more(self.unsent),
        }
        self.in_try = 0;
    }

    /// A datagram came.
    fn hear(&mut self, heard: &Heard)
        ensures { self.new ≡ heard_too heard.now self.old }
    {
        self.came = one_more(self.came);
        if self.in_try == RECEIVES - 1 {
            self.full = one_more(self.full);
        }
        self.in_try = one_more(self.in_try);
        self.last = Some(Stray::of(heard));
    }
}

/// What a port notes: its last question, and what passed since it was first sent.
#[derive(Debug, Drop)]
pub struct Note {
    /// Its octets, if a datagram has room for them.
    question: Option<Datagram>,
    /// Whom it was sent to.
    to: Address,
    pub(crate) passed: Passed,
}

impl Note {
    /// Of a port that nothing was sent over yet.
    pub(crate) fn new() -> Note
        ensures { result ≡ no_note }
    {
        Note {
            question: None,
            to: [0; 6],
            passed: Passed::nothing(),
        }
    }

    /// Whether octets are the last question again, and go to the same receiver.
    fn is_again(&self, octets: &[u8], to: Address) -> bool
        ensures { result ≡ is_again self.now octets.now to }
    {
        match &self.question {
            Some(question) => question.octets() == octets && self.to == to,
            None => false,
        }
    }

    /// Octets were sent, or refused.
    pub(crate) fn send(&mut self, octets: &[u8], to: Address, sent: &Result<(), SocketFault>)
        ensures { self.new ≡ after_send octets.now to sent.now self.old }
    {
        if !self.is_again(octets, to) {
            self.passed = Passed::nothing();
        }
        self.question = Datagram::of(octets);
        self.to = to;
        self.passed.try_more(sent);
    }

    /// A datagram came, or none did.
    pub(crate) fn receive(&mut self, received: &Result<Heard, SocketFault>)
        ensures { self.new ≡ after_receive received.now self.old }
    {
        if let Ok(heard) = received {
            self.passed.hear(heard);
        }
    }
}
