//! A device, its client, and the network between them.

ghost use Rattle.std.specs.Prelude.{◌≡◌, ℕ, ◌+◌, ◌<◌, ◌≤◌, is_some, length, take, vec_len};
ghost use Rattle.std.specs.Prelude.{vec_capacity, OnOk, OnErr, IfOk};

use crate::client::{begin, is_young, keep};
use crate::event::WorldEvent;
use crate::packet::{Packet, Side};
use bac_device::Device;
use bac_link::{Answer, Item, Received, Timeout, Transactions};
use bac_walk::{BadReply, Progress, Walk};
use std::alloc::Global;

/// There was no memory.
#[derive(Clone, Copy, Debug, PartialEq, Eq)]
pub struct Memory;

/// A device, a walk of one of its trend logs, and every packet that was ever sent between them.
/// A packet comes when an event says so, and as often as it says so, until 256 later transactions
/// have begun.
#[derive(Drop)]
pub struct World {
    device: Device,
    walk: Walk,
    transactions: Transactions,
    /// Whether a request is open.
    waits: bool,
    /// How many transactions were begun.
    begun: u64,
    packets: Vec<Packet>,
    items: Vec<Item>,
    caught: Option<u32>,
    ghost is_open: { waits ≡ is_some transactions.pending },
    // Each transaction has a packet.
    ghost count: { begun ≤ length packets.items },
}

impl World {
    ghost use Rattle.bac_device.specs.Answer.{answer};
    ghost use Rattle.bac_link.specs.Answer.{answer_of};
    ghost use Rattle.bac_link.specs.Transactions.{is_awaited};
    ghost use Rattle.bac_world.specs.Network.{happens, happens_all, heard_of, hears, is_answered};
    ghost use Rattle.bac_world.specs.Network.{moves, moves_all, receives, replies, started};
    ghost use Rattle.bac_world.specs.Views.{network_of};
    ghost use Rattle.bac_world.specs.Runs.{DeliversFrom, IsSane, WithstandsFrom};
    ghost use Rattle.bac_world.specs.declared.event.WorldEvent.TheVariants.{Ask as Asks};
    ghost use Rattle.bac_world.specs.declared.event.WorldEvent.TheVariants.{Deliver as Delivers};
    ghost use Rattle.bac_world.specs.declared.event.WorldEvent.TheVariants.{Timeout as TimesOut};
    ghost use Rattle.bac_world.specs.declared.packet.Side.TheVariants.{Device as ToDevice};

    /// A world in which nothing was sent yet. A request is repeated so many times.
    pub fn new(alloc: Global, device: Device, walk: Walk, retries: u8) -> World
        ensures { network_of result ≡ started device walk retries }
    {
        World {
            device,
            walk,
            transactions: Transactions::new(retries),
            waits: false,
            begun: 0,
            packets: Vec::new(alloc),
            items: Vec::new(alloc),
            caught: None,
        }
    }

    /// One event: whether anything happened. Room for what it may add, one packet and 101 items, is
    /// made before it.
    pub fn play(&mut self, event: &WorldEvent) -> Result<bool, Memory>
        ensures step { OnOk result (network_of self.new ≡ happens (network_of self.old) event.now) }
        ensures moved { IfOk result (λ b. b ≡ moves (network_of self.old) event.now) }
        ensures refused { OnErr result (network_of self.new ≡ network_of self.old) }
        ensures was_sane { IsSane (network_of self.old) }
        ensures sane { IsSane (network_of self.new) }
    {
        self.look();
        if self.packets.reserve(1).is_err() {
            return Err(Memory);
        }
        if self.items.reserve(101).is_err() {
            return Err(Memory);
        }
        let moved = match event {
            WorldEvent::Ask => self.ask(),
            WorldEvent::Deliver(k) => self.deliver(*k),
            WorldEvent::Timeout => self.time_out(),
            WorldEvent::Sample(instance) => self.device.sample(*instance).is_ok(),
            WorldEvent::Advance(moment) => self.device.advance(*moment).is_ok(),
            WorldEvent::Handle(datagram) => self.device.handle(datagram.octets()).is_some(),
        };
        self.look();
        Ok(moved)
    }

    /// The events in their order: how many of them happened. After a refusal those before the
    /// refused one stand.
    ///
    /// Of a world that was new, with a walk of a log of its device, all that the walk delivered is
    /// what that log held when it answered, each record once, in rising order.
    pub fn play_all(&mut self, events: &[WorldEvent]) -> Result<usize, Memory>
        ensures played { OnOk result
            (network_of self.new ≡ happens_all (network_of self.old) events.now) }
        ensures counted { IfOk result (λ n. n ≡ moves_all (network_of self.old) events.now) }
        ensures headline { OnOk result
            (DeliversFrom (network_of self.old) events.now (network_of self.new)) }
        ensures withstands { OnOk result
            (WithstandsFrom (network_of self.old) events.now (network_of self.new)) }
        ensures refused { OnErr result ((n : ℕ) × (n < length events.now)
            × (network_of self.new ≡ happens_all (network_of self.old) (take n events.now))
            × WithstandsFrom (network_of self.old) (take n events.now) (network_of self.new)) }
    {
        self.look();
        let mut count = 0;
        for event in events {
            match self.play(event) {
                Ok(moved) => {
                    if moved {
                        count += 1;
                    }
                }
                Err(Memory) => return Err(Memory),
            }
        }
        Ok(count)
    }

    /// What the walk has delivered.
    pub fn items(&self) -> &[Item]
        ensures { result.now ≡ (network_of self.now).items }
    {
        self.items.as_slice()
    }

    /// The walk's next number when it was last caught up.
    pub fn caught_up(&self) -> Option<u32>
        ensures { result ≡ (network_of self.now).caught }
    {
        self.caught
    }

    // For the prover alone: tells what is true of every world.
    fn look(&self)
        ensures { IsSane (network_of self.now) }
    {
        let _clock = self.device.clock();
        let _log = self.walk.log();
        let _question = self.walk.question();
        let _count = self.walk.count();
    }

    // Begins the walk's question, if none is open.
    fn ask(&mut self) -> bool
        requires room { vec_len self.old.packets + 1 ≤ vec_capacity self.old.packets }
        ensures step { network_of self.new ≡ happens (network_of self.old) Asks }
        ensures moved { result ≡ moves (network_of self.old) Asks }
    {
        if self.waits {
            return false;
        }
        let datagram = begin(&mut self.transactions, &self.walk);
        self.waits = true;
        self.begun += 1;
        self.packets.push_reserved(Packet {
            transaction: self.begun,
            to: Side::Device,
            datagram,
        });
        true
    }

    // Repeats the open request, or gives it up.
    fn time_out(&mut self) -> bool
        requires room { vec_len self.old.packets + 1 ≤ vec_capacity self.old.packets }
        ensures step { network_of self.new ≡ happens (network_of self.old) TimesOut }
        ensures moved { result ≡ moves (network_of self.old) TimesOut }
    {
        if !self.waits {
            return false;
        }
        match self.transactions.timeout() {
            Timeout::Resend(datagram) => {
                self.packets.push_reserved(Packet {
                    transaction: self.begun,
                    to: Side::Device,
                    datagram,
                });
            }
            Timeout::GaveUp => {
                self.waits = false;
                self.walk.restart();
            }
        }
        true
    }

    // A packet comes to its end.
    fn deliver(&mut self, k: usize) -> bool
        requires room { vec_len self.old.packets + 1 ≤ vec_capacity self.old.packets }
        requires items_room { vec_len self.old.items + 101 ≤ vec_capacity self.old.items }
        ensures step { network_of self.new ≡ happens (network_of self.old) (Delivers k) }
        ensures moved { result ≡ moves (network_of self.old) (Delivers k) }
    {
        let Some(packet) = self.packets.get(k) else {
            return false;
        };
        let transaction = packet.transaction;
        if !is_young(self.begun, transaction) {
            return false;
        }
        let to = packet.to;
        let datagram = packet.datagram.copy();
        match to {
            Side::Device => self.reply(transaction, datagram.octets()),
            Side::Client => self.receive(datagram.octets()),
        }
    }

    // The device takes a datagram, and sends its reply.
    fn reply(&mut self, transaction: u64, octets: &[u8]) -> bool
        requires room { vec_len self.old.packets + 1 ≤ vec_capacity self.old.packets }
        ensures step { network_of self.new
            ≡ replies (network_of self.old) transaction (answer self.old.device octets.now) }
        ensures moved { result ≡ is_answered (network_of self.old) ToDevice octets.now }
    {
        match self.device.handle(octets) {
            Some(reply) => {
                self.packets.push_reserved(Packet {
                    transaction,
                    to: Side::Client,
                    datagram: reply.datagram,
                });
                true
            }
            None => false,
        }
    }

    // The client takes a datagram.
    fn receive(&mut self, octets: &[u8]) -> bool
        requires items_room { vec_len self.old.items + 101 ≤ vec_capacity self.old.items }
        ensures step { network_of self.new ≡ receives (network_of self.old) octets.now }
        ensures moved { result ≡ is_awaited self.old.transactions.pending octets.now }
    {
        match self.transactions.receive(octets) {
            Received::Done(answer) => {
                self.waits = false;
                self.take(answer);
                true
            }
            Received::Ignored => false,
        }
    }

    // Gives the walk the answer to its question. A walk that was caught up or refused asks by
    // number again.
    fn take(&mut self, answer: Answer)
        requires items_room { vec_len self.old.items + 101 ≤ vec_capacity self.old.items }
        ensures { network_of self.new
            ≡ hears (network_of self.old) (heard_of self.old.walk.log (answer_of answer.entry)) }
    {
        let Answer::Complex(parameters) = answer else {
            self.walk.restart();
            return;
        };
        match self.walk.take(parameters) {
            Ok(Progress::Batch(batch)) => keep(&mut self.items, &batch),
            Ok(Progress::AskOldest) => {}
            Ok(Progress::CaughtUp) => {
                self.caught = Some(self.walk.next_number());
                self.walk.restart();
            }
            Err(BadReply) => self.walk.restart(),
        }
    }
}
