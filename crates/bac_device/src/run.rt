//! A device through a run of events.

ghost use Rattle.std.specs.Prelude.{◌≡◌, IfOk, OnErr, OnOk, map};
ghost use Rattle.bac_objects.specs.Sound.{IsSound};
ghost use Rattle.bac_device.specs.Run.{event_of, left_by, outcomes_of, step};

use crate::device::{ClockBack, Device};
use crate::reply::Reply;
use bac_objects::SampleFault;
use bac_wire::Stamp;
use std::alloc::{AllocError, Global};

/// What happens to a device.
#[derive(Clone, Copy, Debug)]
pub enum Event<'a> {
    /// A datagram comes.
    Datagram(&'a [u8]),
    /// The Trend Log with an instance is to take a sample.
    Sample(u32),
    /// The clock goes on.
    Advance(Stamp),
}

/// What a device made of an event.
#[derive(Debug, Drop)]
pub enum Outcome {
    /// The reply to a datagram, if there is one.
    Datagram(Option<Reply>),
    /// The number of a sample, or why there is none.
    Sample(Result<u32, SampleFault>),
    /// How many logs took a sample, or that the clock isn't set back.
    Advance(Result<usize, ClockBack>),
}

impl Device {
    /// One event.
    fn step(&mut self, event: &Event) -> Outcome
        ensures outcome { result ≡ (step self.old (event_of event.now)).0 }
        ensures state { self.new ≡ (step self.old (event_of event.now)).1 }
    {
        match *event {
            Event::Datagram(octets) => Outcome::Datagram(self.handle(octets)),
            Event::Sample(instance) => Outcome::Sample(self.sample(instance)),
            Event::Advance(stamp) => Outcome::Advance(self.advance(stamp)),
        }
    }

    /// Events one after the other, and the outcome of each. Without memory for the outcomes it
    /// begins none of them.
    pub fn run(&mut self, alloc: Global, events: &[Event]) -> Result<Vec<Outcome>, AllocError>
        ensures outcomes { IfOk result
            (λ outcomes. outcomes.items ≡ outcomes_of self.old (map event_of events.now)) }
        ensures state { OnOk result (self.new ≡ left_by self.old (map event_of events.now)) }
        ensures err { OnErr result (self.new ≡ self.old) }
        ensures was_sound { IsSound self.old }
        ensures sound { IsSound self.new }
    {
        // For the prover alone, here and at the end: a database that is looked at is sound.
        let _ = &self.database;
        let mut outcomes = Vec::with_capacity(alloc, events.len())?;
        for event in events {
            outcomes.push_reserved(self.step(event));
        }
        let _ = &self.database;
        Ok(outcomes)
    }
}
