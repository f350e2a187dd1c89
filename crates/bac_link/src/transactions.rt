//! One transaction at a time (clause 5.4.4).

ghost use Rattle.std.specs.Prelude.{◌≡◌, ◌↔◌, Some, None, IfOk, IsErr, OnOk, OnErr};
ghost use Rattle.bac_apdu.specs.Npdu.{maybe_place_of};
ghost use Rattle.bac_apdu.specs.Route.{IsWay};
ghost use Rattle.bac_link.specs.Path.{towards};
ghost use Rattle.bac_link.specs.Requests.{request_octets, next_invoke, IsSendable, IsTooLong};
ghost use Rattle.bac_link.specs.Transactions.{begun_with, closed, is_awaited as is_awaited_by};
ghost use Rattle.bac_link.specs.Transactions.{Receives, TimesOut};

use crate::answer::{Answer, answer_in, answers};
use crate::request::{Request, write_request};
use bac_apdu::{Far, Route};
use bac_wire::{Datagram, Full};

/// A request that waits for its answer.
#[derive(Debug, Drop)]
pub struct Pending {
    request: Datagram,
    /// How often it was sent again.
    repeats: u8,
}

impl Pending {
    fn copy(&self) -> Pending
        ensures { result ≡ self.now }
    {
        Pending {
            request: self.request.copy(),
            repeats: self.repeats,
        }
    }
}

/// What is done when an answer didn't come in time.
#[derive(Debug, Drop)]
pub enum Timeout {
    /// This datagram is sent again.
    Resend(Datagram),
    /// The request is given up.
    GaveUp,
}

/// What a datagram is to the open request.
#[derive(Clone, Copy, Debug, PartialEq, Eq)]
pub enum Received<'a> {
    /// Its answer.
    Done(Answer<'a>),
    /// Nothing.
    Ignored,
}

/// The client's side of confirmed services: at most one request is open.
#[derive(Debug, Drop)]
pub struct Transactions {
    /// How often a request is repeated.
    retries: u8,
    /// The place that requests are for, if it is behind a router.
    route: Option<Route>,
    /// The invoke ID of the last request.
    invoke: u8,
    /// How many requests were begun; at its greatest value it stays.
    begun: u64,
    pending: Option<Pending>,
}

impl Transactions {
    /// None begun, each to be repeated so many times.
    pub fn new(retries: u8) -> Transactions
        ensures { result
            ≡ record { retries = retries; route = None; invoke = 0; begun = 0; pending = None } }
    {
        Transactions {
            retries,
            route: None,
            invoke: 0,
            begun: 0,
            pending: None,
        }
    }

    /// The same with a device behind a router: each request has its place as DNET and DADR.
    pub fn through(retries: u8, route: Route) -> Transactions
        ensures { result ≡ record
            { retries = retries; route = Some route; invoke = 0; begun = 0; pending = None } }
    {
        let mut transactions = Transactions::new(retries);
        transactions.route = Some(route);
        transactions
    }

    /// The same again, with what is open.
    pub fn copy(&self) -> Transactions
        ensures { result ≡ self.now }
    {
        Transactions {
            retries: self.retries,
            route: self.route_copy(),
            invoke: self.invoke,
            begun: self.begun,
            pending: self.pending_copy(),
        }
    }

    fn route_copy(&self) -> Option<Route>
        ensures { result ≡ self.now.route }
    {
        match self.dest() {
            Some(far) => Route::new(far.net, far.address),
            None => None,
        }
    }

    fn pending_copy(&self) -> Option<Pending>
        ensures { result ≡ self.now.pending }
    {
        match &self.pending {
            Some(pending) => Some(pending.copy()),
            None => None,
        }
    }

    /// The place that requests are for.
    fn dest(&self) -> Option<Far>
        ensures value { maybe_place_of result ≡ self.now.route }
        ensures way { IsWay self.now.route }
    {
        match &self.route {
            Some(route) => Some(route.far()),
            None => None,
        }
    }

    /// Opens a request, in place of one that is open, and gives the datagram to be sent. Invoke IDs
    /// are 1, 2 and so on; after 255 comes 0. `Full` if the request's APDU has over 1476 octets;
    /// then nothing changes.
    pub fn begin(&mut self, request: &Request) -> Result<Datagram, Full>
        requires { IsSendable request.now }
        ensures datagram { IfOk result (λ d. d ≡ request_octets (towards self.old.route)
            (next_invoke self.old.invoke) request.now) }
        ensures way { IsWay self.old.route }
        ensures opened { IfOk result (λ d. self.new ≡ begun_with request.now self.old) }
        ensures full { IsErr result ↔ IsTooLong request.now }
        ensures err { OnErr result (self.new ≡ self.old) }
    {
        let mut datagram = Datagram::new();
        self.pass(request, &mut datagram)?;
        self.pending = Some(Pending {
            request: datagram.copy(),
            repeats: 0,
        });
        Ok(datagram)
    }

    /// Counts a request as begun and nothing as open, and writes its datagram in place of what
    /// `out` holds: what `begin` and `close` do, without a copy of the datagram. After `Full` it
    /// isn't said what `out` holds.
    pub(crate) fn pass(&mut self, request: &Request, out: &mut Datagram) -> Result<(), Full>
        requires { IsSendable request.now }
        ensures datagram { OnOk result (out.new
            ≡ request_octets (towards self.old.route) (next_invoke self.old.invoke)
            request.now) }
        ensures way { IsWay self.old.route }
        ensures passed { OnOk result (self.new ≡ closed (begun_with request.now self.old)) }
        ensures full { IsErr result ↔ IsTooLong request.now }
        ensures err { OnErr result (self.new ≡ self.old) }
    {
        let invoke = self.invoke.wrapping_add(1);
        write_request(out, invoke, self.dest(), request)?;
        self.invoke = invoke;
        self.begun = self.begun.saturating_add(1);
        self.pending = None;
        Ok(())
    }

    /// Takes a datagram that came: the answer to the open request, which closes it, or `Ignored`,
    /// and nothing changes.
    pub fn receive<'a>(&mut self, datagram: &'a [u8]) -> Received<'a>
        ensures { Receives self.old datagram.now result self.new }
    {
        if !self.is_awaited(datagram) {
            return Received::Ignored;
        }
        match answer_in(datagram) {
            Some((_, answer)) => {
                self.pending = None;
                Received::Done(answer)
            }
            None => Received::Ignored,
        }
    }

    fn is_awaited(&self, datagram: &[u8]) -> bool
        ensures { result ≡ is_awaited_by self.now.pending datagram.now }
    {
        match &self.pending {
            Some(pending) => answers(pending.request.octets(), datagram),
            None => false,
        }
    }

    /// No answer came in time: the same octets again, as long as fewer than `retries` repeats were
    /// given; else the request is closed. With nothing open it is `GaveUp`.
    pub fn timeout(&mut self) -> Timeout
        ensures { TimesOut self.old result self.new }
    {
        match &mut self.pending {
            Some(pending) => {
                if pending.repeats < self.retries {
                    pending.repeats += 1;
                    return Timeout::Resend(pending.request.copy());
                }
            }
            None => {}
        }
        self.pending = None;
        Timeout::GaveUp
    }

    pub(crate) fn retries(&self) -> u8
        ensures { result ≡ self.now.retries }
    {
        self.retries
    }
}
