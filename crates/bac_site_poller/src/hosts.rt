//! How many requests may be open at one IP address, where some were lost.

ghost use Rattle.std.specs.Prelude.{◌≡◌, OnOk, map};
ghost use Rattle.bac_poll.specs.Poll.{half_of};
ghost use Rattle.bac_site_poller.specs.Hosts.{answered, answered_at, host_at, is_answered, is_loss};
ghost use Rattle.bac_site_poller.specs.Hosts.{least_of, limit_of, risen, slowed, slowed_at};
ghost use Rattle.bac_site_poller.specs.Hosts.{with_limit};

use bac_device_poller::Doing;
use bac_wire::Address;
use std::alloc::AllocError;

/// A host at which requests were lost.
#[derive(Clone, Drop)]
pub struct Host {
    /// The address of a device there.
    pub peer: Address,
    /// How many requests may be open there.
    pub limit: usize,
    /// After how many answers in a row there may be one more.
    pub left: usize,
    /// The fewest that ever might be open.
    pub least: usize,
}

/// That of an address, if requests were lost there.
pub fn host_at(peer: Address, hosts: &[Host]) -> Option<Host>
    ensures { result ≡ host_at peer hosts.now }
{
    hosts
        .iter()
        .cloned()
        .find(|host| host.peer[..4] == peer[..4])
}

/// How many requests may be open at a host, where so many may at any other.
pub fn limit_of(most: usize, host: Option<Host>) -> usize
    ensures { result ≡ limit_of most host }
{
    match host {
        Some(host) => host.limit.min(most).max(1),
        None => most.max(1),
    }
}

/// The fewest that ever might be open.
pub fn least_of(most: usize, host: Option<Host>) -> usize
    ensures { result ≡ least_of most host }
{
    match host {
        Some(host) => host.least,
        None => most.max(1),
    }
}

/// Half of so many, one at least.
pub fn half_of(limit: usize) -> usize
    ensures { result ≡ half_of limit }
{
    if limit <= 1 {
        return 1;
    }
    limit / 2
}

/// One more, as far as any host has them.
fn risen(most: usize, limit: usize) -> usize
    ensures { result ≡ risen most limit }
{
    if limit < most {
        return limit + 1;
    }
    limit
}

impl Host {
    /// So many requests may be open from now on.
    fn slow(&mut self, limit: usize)
        ensures { self.new ≡ slowed limit self.old }
    {
        self.limit = limit;
        self.left = limit;
        self.least = self.least.min(limit);
    }

    /// The same, if it is that of an address.
    fn slow_at(&mut self, peer: Address, limit: usize)
        ensures { self.new ≡ slowed_at peer limit self.old }
    {
        if self.peer[..4] == peer[..4] {
            self.slow(limit);
        }
    }

    /// An answer came from it. Behind a round of them one more request may be open.
    fn answer(&mut self, most: usize)
        ensures { self.new ≡ answered most self.old }
    {
        if self.left <= 1 {
            self.limit = risen(most, self.limit);
            self.left = self.limit;
        } else {
            self.left -= 1;
        }
    }

    /// The same, if it is that of an address.
    fn answer_at(&mut self, most: usize, peer: Address)
        ensures { self.new ≡ answered_at most peer self.old }
    {
        if self.peer[..4] == peer[..4] {
            self.answer(most);
        }
    }
}

/// At the host of an address so many requests may be open, if some were lost there before.
pub fn slow_all(hosts: &mut [Host], peer: Address, limit: usize)
    ensures { hosts.new ≡ map (slowed_at peer limit) hosts.old }
{
    for host in hosts.iter_mut() {
        host.slow_at(peer, limit);
    }
}

/// At the host of an address so many requests may be open.
pub fn set_limit(hosts: &mut Vec<Host>, peer: Address, limit: usize) -> Result<(), AllocError>
    ensures { OnOk result (hosts.new.items ≡ with_limit peer limit hosts.old.items) }
{
    if host_at(peer, hosts.as_slice()).is_some() {
        slow_all(hosts.as_mut_slice(), peer, limit);
        return Ok(());
    }
    hosts.push(Host {
        peer,
        limit,
        left: limit,
        least: limit,
    })?;
    Ok(())
}

/// An answer came from an address.
pub fn answer_all(hosts: &mut [Host], most: usize, peer: Address)
    ensures { hosts.new ≡ map (answered_at most peer) hosts.old }
{
    for host in hosts.iter_mut() {
        host.answer_at(most, peer);
    }
}

/// Whether a poll's question was lost just now: it is to be sent again, or no answer came.
pub fn is_loss(doing: &Doing) -> bool
    ensures { result ≡ is_loss doing.now }
{
    match doing {
        Doing::Resends(_) => true,
        Doing::Loses => true,
        Doing::Asks => false,
        Doing::Waits => false,
        Doing::Hears(_) => false,
        Doing::Tells(_) => false,
        Doing::Ended(_) => false,
    }
}

/// Whether it was answered just now.
pub fn is_answered(doing: &Doing) -> bool
    ensures { result ≡ is_answered doing.now }
{
    match doing {
        Doing::Hears(_) => true,
        Doing::Resends(_) => false,
        Doing::Loses => false,
        Doing::Asks => false,
        Doing::Waits => false,
        Doing::Tells(_) => false,
        Doing::Ended(_) => false,
    }
}
