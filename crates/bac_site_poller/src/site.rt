//! The polls of many devices over one port.

ghost use Rattle.std.specs.Prelude.{◌≡◌, ◌↔◌, ◌++◌, ◌∷◌, [], false, IfNone, IfOk};
ghost use Rattle.std.specs.Prelude.{IfSome, IsTrue, None, OnOk, Some};
ghost use Rattle.std.specs.Bool.{OnFalse, OnTrue};
ghost use Rattle.bac_device_poller.specs.Telling.{IsToldBy};
ghost use Rattle.bac_site_poller.specs.News.{news_line};
ghost use Rattle.bac_site_poller.specs.Site.{GivesFrom, GivesNews, GivesSite, GivesWaiting};
ghost use Rattle.bac_site_poller.specs.Site.{HasPlace, HasPlaceAt, IsActed, IsAsked, IsNextAsked};
ghost use Rattle.bac_site_poller.specs.Site.{MayAct, MayAsk, NoneAsked, Rests, SiteHears};
ghost use Rattle.bac_site_poller.specs.Site.{fresh_site, given, hosts_lost, is_asked_at};
ghost use Rattle.bac_site_poller.specs.Site.{fresh_count, is_crowded, is_place_wanted, limit_at};
ghost use Rattle.bac_site_poller.specs.Site.{news_lost, noted, put, site_heard, site_read};
ghost use Rattle.bac_site_poller.specs.Site.{stray_by};
ghost use Rattle.bac_site_poller.specs.Status.{site_status};

use crate::hosts::{
    Host, answer_all, half_of, host_at, is_answered, is_loss, least_of, limit_of, set_limit,
    slow_all,
};
use crate::limits::Limits;
use crate::moment::moment_after;
use crate::news::{News, news_line};
use crate::seat::{
    Seat, acting, count_at, count_fresh, greatest, greatest_queued, hear_all, is_known, is_queued,
    nearest, notice_all, read_all, want,
};
use bac_device_poller::{DevicePoller, Doing, Ids, Status, told_by};
use bac_drive::{Machine, Next};
use bac_ports::{Heard, SocketFault};
use bac_wire::{Address, Datagram, Stamp};
use std::alloc::{AllocError, Global};
use std::collections::VecDeque;
use std::marker::Model;

/// The polls of many devices over one port.
#[derive(Drop)]
pub struct SitePoller {
    limits: Limits,
    /// This machine's clock in UTC, as the other one told 0.
    begun: Stamp,
    /// Milliseconds since then, as they were read last.
    time: u64,
    is_stale: bool,
    /// Those that are free for new logs.
    ids: Ids,
    active: Vec<Seat>,
    waiting: VecDeque<Seat>,
    ended: Vec<Seat>,
    /// Where requests were lost.
    hosts: Vec<Host>,
    /// What is to be told beside the lines of devices.
    news: VecDeque<News>,
}

impl Model for SitePoller {
    ghost use Rattle.bac_site_poller.specs.Site.{SiteState};

    ghost Value = { SiteState };

    ghost view = { λ site. record {
      limits = site.limits;
      begun = site.begun;
      time = site.time;
      is_stale = site.is_stale;
      ids = site.ids;
      active = site.active.items;
      waiting = site.waiting.items;
      ended = site.ended.items;
      hosts = site.hosts.items;
      news = site.news.items;
    } };
}

// What is told beside the lines of devices goes to the errors.
fn warning(alloc: Global, news: News) -> Result<Next, AllocError>
    ensures { IfOk result (λ next. IsToldBy false (news_line news) next) }
{
    let line = news_line(alloc, news)?;
    Ok(told_by(false, line))
}

impl SitePoller {
    /// No devices. `begun` is this machine's clock in UTC as the clock of the run tells 0; `ids`
    /// are free for new logs.
    pub fn new(alloc: Global, limits: Limits, begun: Stamp, ids: Ids) -> SitePoller
        ensures { result ≡ fresh_site limits begun ids }
    {
        SitePoller {
            limits,
            begun,
            time: 0,
            is_stale: true,
            ids,
            active: Vec::new(alloc),
            waiting: VecDeque::new(alloc),
            ended: Vec::new(alloc),
            hosts: Vec::new(alloc),
            news: VecDeque::new(alloc),
        }
    }

    /// One more, which is asked behind the others.
    pub fn add(&mut self, poller: DevicePoller) -> Result<(), AllocError>
        ensures ok { OnOk result (self.new ≡ record self.old {
          waiting = self.old.waiting ++ record
              { poller = poller; due = 0; sent = 0; is_repeated = false; stray = None } ∷ [];
        }) }
    {
        self.waiting.push_back(Seat {
            poller,
            due: 0,
            sent: 0,
            is_repeated: false,
            stray: None,
        })?;
        Ok(())
    }

    /// The status that it leaves, so far: the greatest of all its devices.
    pub fn status(&self) -> Status
        ensures { result ≡ site_status self.now }
    {
        let asked = greatest(Status::Done, self.active.as_slice());
        let queued = greatest_queued(asked, &self.waiting);
        greatest(queued, self.ended.as_slice())
    }

    // Whether a device of the site is at an address: one that is asked now, that waits for its
    // turn, or that has ended.
    fn is_asked_at(&self, from: Address) -> bool
        ensures { result ≡ is_asked_at self.now from }
    {
        is_known(self.active.as_slice(), from)
            || is_queued(&self.waiting, from)
            || is_known(self.ended.as_slice(), from)
    }

    // A datagram came from an address, at a moment.
    fn hear_from(&mut self, from: Address, datagram: &Datagram, now: Stamp)
        ensures { self.new ≡ record self.old {
          active
              = given (is_asked_at self.old from) from (Some datagram.now) now self.old.active;
        } }
    {
        let is_known = self.is_asked_at(from);
        hear_all(self.active.as_mut_slice(), from, datagram, now);
        if !is_known {
            notice_all(self.active.as_mut_slice(), from, datagram);
        }
    }

    // A datagram came, or none in time, at a moment.
    fn hear_at(&mut self, heard: Result<Heard, SocketFault>, now: Stamp)
        ensures { self.new ≡ site_heard now heard self.old }
    {
        self.is_stale = true;
        if let Ok(heard) = heard {
            let Heard { from, datagram } = heard;
            if let Some(datagram) = datagram {
                self.hear_from(from, &datagram, now);
            }
        }
    }

    // The same, at the moment as the clock was read last.
    fn hear_any(&mut self, heard: Result<Heard, SocketFault>)
        ensures { SiteHears self.old heard self.new }
    {
        let now = moment_after(self.begun, self.time);
        self.hear_at(heard, now);
    }

    /// The clock tells so many milliseconds. It never goes back.
    fn read_to(&mut self, ms: u64)
        ensures { self.new ≡ site_read ms self.old }
    {
        let now = self.time.max(ms);
        self.time = now;
        self.is_stale = false;
        read_all(self.active.as_mut_slice(), now);
    }

    /// How many have a question that counts among those in flight.
    fn fresh_count(&self) -> usize
        ensures { result ≡ fresh_count self.now }
    {
        count_fresh(self.active.as_slice(), self.time)
    }

    /// Whether one more may be asked.
    fn has_place(&self) -> bool
        ensures { IsTrue result ↔ HasPlace self.now }
    {
        self.fresh_count() < self.limits.at_once && self.active.len() < self.limits.most
    }

    /// Whether devices wait for a place among those in flight.
    fn is_place_wanted(&self) -> bool
        ensures { result ≡ is_place_wanted self.now }
    {
        self.waiting.len() > 0 && self.fresh_count() >= self.limits.at_once
    }

    /// How many requests may be open at the host of an address.
    fn limit_at(&self, peer: Address) -> usize
        ensures { result ≡ limit_at self.now peer }
    {
        limit_of(self.limits.at_host, host_at(peer, self.hosts.as_slice()))
    }

    /// Whether one more may be asked there.
    fn has_place_at(&self, peer: Address) -> bool
        ensures { IsTrue result ↔ HasPlaceAt self.now peer }
    {
        count_at(self.active.as_slice(), peer) < self.limit_at(peer)
    }

    /// Whether others are asked there, beside one whose request was lost.
    fn is_crowded(&self, peer: Address) -> bool
        ensures { result ≡ is_crowded self.now peer }
    {
        count_at(self.active.as_slice(), peer) > 0
    }

    /// It is to be told of a host where a request was lost, if there never were so few.
    fn note_loss(&mut self, peer: Address) -> Result<(), AllocError>
        ensures { OnOk result (self.new
            ≡ record self.old { news = self.old.news ++ news_lost self.old peer }) }
    {
        let limit = half_of(self.limit_at(peer));
        let least = least_of(self.limits.at_host, host_at(peer, self.hosts.as_slice()));
        if self.is_crowded(peer) && limit < least {
            self.news.push_back(News::Slow(peer, limit))?;
        }
        Ok(())
    }

    /// How many requests may be open where one was lost.
    fn slow(&mut self, peer: Address) -> Result<(), AllocError>
        ensures { OnOk result (self.new
            ≡ record self.old { hosts = hosts_lost self.old peer }) }
    {
        let limit = self.limit_at(peer);
        if self.is_crowded(peer) {
            return set_limit(&mut self.hosts, peer, half_of(limit));
        }
        slow_all(self.hosts.as_mut_slice(), peer, limit);
        Ok(())
    }

    /// It is to be told from where else an answer came, if none came to any send of a question.
    fn note_stray(&mut self, seat: &Seat) -> Result<(), AllocError>
        ensures { OnOk result (self.new ≡ record self.old
            { news = self.old.news ++ stray_by seat.now.poller.doing seat.now }) }
    {
        let Doing::Loses = seat.poller.doing() else {
            return Ok(());
        };
        match seat.stray {
            Some(from) => self.news.push_back(News::Stray(seat.poller.peer(), from))?,
            None => {}
        }
        Ok(())
    }

    /// What a seat that isn't waiting any more says of its host, and of what came from elsewhere.
    fn note(&mut self, seat: &Seat) -> Result<(), AllocError>
        ensures { OnOk result (self.new ≡ noted self.old seat.now) }
    {
        let peer = seat.poller.peer();
        if is_loss(seat.poller.doing()) {
            self.note_loss(peer)?;
            self.slow(peer)?;
            return self.note_stray(seat);
        }
        if is_answered(seat.poller.doing()) {
            answer_all(self.hosts.as_mut_slice(), self.limits.at_host, peer);
        }
        Ok(())
    }

    /// Whether the one at a place waits for its turn, and its host has room.
    fn is_free(&self, place: usize) -> bool
        requires { HasPlace self.now }
        ensures free { OnTrue result (MayAsk self.now place) }
        ensures full { OnFalse result (MayAsk self.now place → ⊥) }
    {
        match self.waiting.get(place) {
            Some(seat) => self.has_place_at(seat.poller.peer()),
            None => false,
        }
    }

    /// The place of the first that waits for its turn and has room.
    fn free(&self) -> Option<usize>
        ensures some { IfSome result (λ place. IsNextAsked self.now place) }
        ensures none { IfNone result (NoneAsked self.now) }
    {
        if !self.has_place() {
            return None;
        }
        for place in 0..self.waiting.len() {
            if self.is_free(place) {
                return Some(place);
            }
        }
        None
    }

    /// A seat goes where it belongs, by what its poller is at.
    fn put(&mut self, seat: Seat) -> Result<(), AllocError>
        ensures { OnOk result (self.new ≡ put self.old seat) }
    {
        let mut seat = seat;
        match seat.poller.doing() {
            Doing::Asks => {
                seat.is_repeated = false;
                seat.stray = None;
                self.waiting.push_back(seat)?;
            }
            Doing::Waits => {
                seat.due = self.time.saturating_add(u64::from(self.limits.wait_ms));
                self.active.push(seat)?;
            }
            Doing::Resends(_) => self.active.push(seat)?,
            Doing::Hears(_) => self.active.push(seat)?,
            Doing::Loses => self.active.push(seat)?,
            Doing::Tells(_) => self.active.push(seat)?,
            Doing::Ended(_) => self.ended.push(seat)?,
        }
        Ok(())
    }

    /// A seat's poll says what it wants, and the seat goes where it belongs.
    fn give(&mut self, alloc: Global, seat: Seat) -> Result<Next, AllocError>
        ensures { IfOk result (λ next. GivesFrom self.old seat next self.new) }
    {
        let mut seat = seat;
        seat.poller.lend(self.ids);
        let next = want(&mut seat.poller, alloc)?;
        self.ids = seat.poller.ids();
        self.put(seat)?;
        Ok(next)
    }

    /// The active one at a place, which isn't waiting any more, says what it wants.
    fn act_at(&mut self, alloc: Global, place: usize) -> Result<Next, AllocError>
        requires { MayAct self.old.active place }
        ensures { IfOk result (λ next. IsActed self.old next self.new) }
    {
        let seat = self.active.remove(place);
        self.note(&seat)?;
        self.give(alloc, seat)
    }

    /// The one at a place is asked.
    fn ask_at(&mut self, alloc: Global, place: usize) -> Result<Next, AllocError>
        requires { IsNextAsked self.old place }
        ensures { IfOk result (λ next. IsAsked self.old next self.new) }
    {
        match self.waiting.remove(place) {
            Some(seat) => {
                let mut seat = seat;
                seat.send(self.time);
                self.give(alloc, seat)
            }
            None => unreachable!(),
        }
    }

    /// Nothing is to be done now: those that are asked are waited for, or all have ended.
    fn rest(&self) -> Next
        requires { NoneAsked self.now }
        ensures { Rests self.now result }
    {
        let is_wanted = self.is_place_wanted();
        match nearest(self.active.as_slice(), is_wanted, self.time) {
            Some(due) => Next::Wait(due.saturating_sub(self.time).min(u64::from(u32::MAX)) as u32),
            None => Next::End,
        }
    }

    /// What is to be done while all that are asked are waited for.
    fn wait(&mut self, alloc: Global) -> Result<Next, AllocError>
        ensures { IfOk result (λ next. GivesWaiting self.old.is_stale self.old next self.new) }
    {
        if self.is_stale {
            return Ok(Next::Read);
        }
        match self.free() {
            Some(place) => self.ask_at(alloc, place),
            None => Ok(self.rest()),
        }
    }

    /// What is to be done while nothing is to be told.
    fn poll(&mut self, alloc: Global) -> Result<Next, AllocError>
        ensures { IfOk result (λ next. GivesNews [] self.old next self.new) }
    {
        match acting(self.active.as_slice()) {
            Some(place) => self.act_at(alloc, place),
            None => self.wait(alloc),
        }
    }
}

impl SitePoller {
    /// What is to be done.
    fn want(&mut self, alloc: Global) -> Result<Next, AllocError>
        ensures { IfOk result (λ next. GivesSite self.old next self.new) }
    {
        match self.news.pop_front() {
            Some(news) => warning(alloc, news),
            None => self.poll(alloc),
        }
    }
}

impl Machine for SitePoller {
    ghost gives = { λ old wanted new. GivesSite old wanted new };

    ghost hears = { λ old heard new. SiteHears old heard new };

    ghost reads = { λ old ms new. new ≡ site_read ms old };

    fn next(&mut self, alloc: Global) -> Result<Next, AllocError> {
        self.want(alloc)
    }

    fn hear(&mut self, heard: Result<Heard, SocketFault>) {
        self.hear_any(heard);
    }

    fn read(&mut self, ms: u64) {
        self.read_to(ms);
    }
}
