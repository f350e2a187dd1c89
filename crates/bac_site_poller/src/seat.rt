//! One device of a site.

ghost use Rattle.std.specs.Prelude.{◌≡◌, [], IfNone, IfOk, IfSome, count_by, fold, map, min};
ghost use Rattle.bac_device_poller.specs.Poller.{is_waiting};
ghost use Rattle.bac_site_poller.specs.Seat.{Wants, age, fresh_until, is_at, is_fresh, is_known};
ghost use Rattle.bac_site_poller.specs.Seat.{is_stray, noticed, seat_heard, seat_read, sent_at};
ghost use Rattle.bac_site_poller.specs.Seat.{until};
ghost use Rattle.bac_site_poller.specs.Site.{IsNearest, MayAct, NoneActs};
ghost use Rattle.bac_site_poller.specs.Status.{with_seat};

use bac_device_poller::{DevicePoller, Doing, Status};
use bac_drive::Next;
use bac_wire::{Address, Datagram, Stamp};
use std::alloc::{AllocError, Global};
use std::collections::VecDeque;

/// How long a request counts among those in flight, in milliseconds, while no answer comes.
const FRESH_MS: u64 = 250;

/// A device, and its poll.
#[derive(Drop)]
pub struct Seat {
    pub poller: DevicePoller,
    /// Until when the send of its question is waited for.
    pub due: u64,
    /// When its question was sent first.
    pub sent: u64,
    /// Whether its question was sent more than once.
    pub is_repeated: bool,
    /// From where else an answer to its question came.
    pub stray: Option<Address>,
}

/// What the poll of a device wants. Of one that has ended nothing is wanted, and the clock is read.
pub fn want(poller: &mut DevicePoller, alloc: Global) -> Result<Next, AllocError>
    ensures { IfOk result (λ next. Wants poller.old.doing poller.old next poller.new) }
{
    match poller.doing() {
        Doing::Ended(_) => Ok(Next::Read),
        Doing::Asks => poller.next(alloc),
        Doing::Resends(_) => poller.next(alloc),
        Doing::Waits => poller.next(alloc),
        Doing::Hears(_) => poller.next(alloc),
        Doing::Loses => poller.next(alloc),
        Doing::Tells(_) => poller.next(alloc),
    }
}

impl Seat {
    /// Whether a send of its question is waited for.
    pub fn is_waiting(&self) -> bool
        ensures { result ≡ is_waiting self.now.poller.doing }
    {
        self.poller.is_waiting()
    }

    /// A datagram came from an address, at a moment. Its poll takes it, if it answers its open
    /// question.
    pub fn hear(&mut self, from: Address, datagram: &Datagram, now: Stamp)
        ensures { self.new ≡ seat_heard from datagram.now now self.old }
    {
        self.poller.hear(from, datagram, now);
    }

    /// Whether a datagram would answer its open request, if it came from its device.
    fn is_stray(&self, from: Address, datagram: &Datagram) -> bool
        ensures { result ≡ is_stray from datagram.now self.now }
    {
        if from == self.poller.peer() {
            return false;
        }
        self.poller.awaits(datagram)
    }

    /// A datagram came from an address where no device of the site is.
    pub fn notice(&mut self, from: Address, datagram: &Datagram)
        ensures { self.new ≡ noticed from datagram.now self.old }
    {
        if self.is_stray(from, datagram) {
            self.stray = Some(from);
        }
    }

    /// Its question is sent first, as the clock tells so many milliseconds.
    pub fn send(&mut self, now: u64)
        ensures { self.new ≡ sent_at now self.old }
    {
        self.sent = now;
    }

    /// How old its question is, in milliseconds.
    fn age(&self, now: u64) -> u64
        ensures { result ≡ age now self.now }
    {
        now.saturating_sub(self.sent)
    }

    /// Whether its question counts among those in flight.
    pub fn is_fresh(&self, now: u64) -> bool
        ensures { result ≡ is_fresh now self.now }
    {
        !self.is_repeated && self.age(now) < FRESH_MS
    }

    /// When it gives up its place among those, or the last moment of the clock.
    fn fresh_until(&self, now: u64) -> u64
        ensures { result ≡ min (fresh_until now self.now) 18446744073709551615 }
    {
        now.saturating_add(FRESH_MS.saturating_sub(self.age(now)))
    }

    /// Until when it is waited for, where places among those in flight are wanted, or aren't.
    pub fn until(&self, is_wanted: bool, now: u64) -> u64
        ensures { result ≡ until is_wanted now self.now }
    {
        if is_wanted && self.is_fresh(now) {
            return self.due.min(self.fresh_until(now));
        }
        self.due
    }

    /// The clock tells so many milliseconds.
    pub fn read(&mut self, now: u64)
        ensures { self.new ≡ seat_read now self.old }
    {
        if self.is_waiting() && self.due <= now {
            self.poller.miss();
            self.is_repeated = true;
        }
    }
}

/// The place of one that isn't waiting.
pub fn acting(seats: &[Seat]) -> Option<usize>
    ensures some { IfSome result (λ place. MayAct seats.now place) }
    ensures none { IfNone result (NoneActs seats.now) }
{
    for (place, seat) in seats.iter().enumerate() {
        if !seat.is_waiting() {
            return Some(place);
        }
    }
    None
}

/// Until when the next of them is waited for, where places among those in flight are wanted, or
/// aren't.
pub fn nearest(seats: &[Seat], is_wanted: bool, now: u64) -> Option<u64>
    ensures some { IfSome result (λ due. IsNearest (until is_wanted now) seats.now due) }
    ensures none { IfNone result (seats.now ≡ []) }
{
    let mut nearest = seats.first()?.until(is_wanted, now);
    for seat in seats {
        nearest = nearest.min(seat.until(is_wanted, now));
    }
    Some(nearest)
}

/// The greatest of a status and those of these devices.
pub fn greatest(status: Status, seats: &[Seat]) -> Status
    ensures { result ≡ fold with_seat status seats.now }
{
    let mut greatest = status;
    for seat in seats {
        greatest = greatest.or_greater(seat.poller.status());
    }
    greatest
}

/// The same of those that wait for their turn.
pub fn greatest_queued(status: Status, seats: &VecDeque<Seat>) -> Status
    ensures { result ≡ fold with_seat status seats.now.items }
{
    let mut greatest = status;
    for seat in seats {
        greatest = greatest.or_greater(seat.poller.status());
    }
    greatest
}

/// How many have a question that counts among those in flight.
pub fn count_fresh(seats: &[Seat], now: u64) -> usize
    ensures { result ≡ count_by (is_fresh now) seats.now }
{
    let mut count = 0;
    for seat in seats {
        if seat.is_fresh(now) {
            count += 1;
        }
    }
    count
}

/// How many are at the host of an address.
pub fn count_at(seats: &[Seat], peer: Address) -> usize
    ensures { result ≡ count_by (is_at peer) seats.now }
{
    let mut count = 0;
    for seat in seats {
        let at = seat.poller.peer();
        if at[..4] == peer[..4] {
            count += 1;
        }
    }
    count
}

/// A datagram came from an address, at a moment.
pub fn hear_all(seats: &mut [Seat], from: Address, datagram: &Datagram, now: Stamp)
    ensures { seats.new ≡ map (seat_heard from datagram.now now) seats.old }
{
    for seat in seats.iter_mut() {
        seat.hear(from, datagram, now);
    }
}

/// Whether one of them is at an address.
pub fn is_known(seats: &[Seat], from: Address) -> bool
    ensures { result ≡ is_known from seats.now }
{
    seats.iter().any(|seat| seat.poller.peer() == from)
}

/// The same of those that wait for their turn.
pub fn is_queued(seats: &VecDeque<Seat>, from: Address) -> bool
    ensures { result ≡ is_known from seats.now.items }
{
    seats.iter().any(|seat| seat.poller.peer() == from)
}

/// A datagram came from an address where no device of the site is.
pub fn notice_all(seats: &mut [Seat], from: Address, datagram: &Datagram)
    ensures { seats.new ≡ map (noticed from datagram.now) seats.old }
{
    for seat in seats.iter_mut() {
        seat.notice(from, datagram);
    }
}

/// The clock tells so many milliseconds.
pub fn read_all(seats: &mut [Seat], now: u64)
    ensures { seats.new ≡ map (seat_read now) seats.old }
{
    for seat in seats.iter_mut() {
        seat.read(now);
    }
}
