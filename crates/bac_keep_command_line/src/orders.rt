//! What the words of `bac keep` ask for.

ghost use Rattle.std.specs.Prelude.{◌≡◌, map};
ghost use Rattle.bac_ports.specs.Sockets.{own_address};
ghost use Rattle.bac_keep_command_line.specs.Devices.{named_as};
ghost use Rattle.bac_keep_command_line.specs.Orders.{options_as, options_for, order_as, order_in};
ghost use Rattle.bac_keep_command_line.specs.Orders.{stop_in};
ghost use Rattle.bac_keep_command_line.specs.Orders.{way_to};
ghost use Rattle.bac_keep_command_line.specs.Values.{Makes};

use crate::devices::{all_in, named_in};
use crate::fault::Fault;
use crate::options::{Fetching, Sending, fetching_in, sending_in};
use crate::texts::moment_text;
use bac_command_line::{Group, Keep, KeepOptions, Word};
use bac_keeping::Run;
use bac_plan::{Named, Options};
use bac_site_poller::Limits;
use bac_wire::{Address, Stamp};
use std::alloc::Global;

/// How many requests may be open at one host.
const AT_HOST: usize = 4;

/// How many at all.
const MOST: usize = 1024;

/// What the words of `bac keep` ask for.
#[derive(Drop)]
pub struct Order {
    /// The run over the archive.
    pub run: Run,
    /// The address at which devices are asked: four octets of the host, two of the port. Zeros are
    /// any.
    pub local: Address,
    /// How many seconds a file that is in use is waited for.
    pub wait: u32,
}

/// Our own address: any, if the words name none.
fn own_address(local: Option<Address>) -> Address
    ensures { result ≡ own_address local }
{
    match local {
        Some(local) => local,
        None => [0; 6],
    }
}

/// How devices are polled.
fn options_for(at_once: u32, sending: &Sending, fetching: &Fetching, begun: Stamp) -> Options
    ensures { options_as result ≡ options_for at_once sending.now fetching.now begun }
{
    Options {
        limits: Limits::new(at_once as usize, AT_HOST, MOST, sending.wait_ms),
        records: fetching.records,
        steps: fetching.steps,
        retries: sending.retries,
        clocks: true,
        begun,
    }
}

/// A way behind a router is one to a device.
fn way_to(groups: &[Group], options: &KeepOptions) -> Result<(), Fault>
    ensures { result ≡ way_to groups.now options.now }
{
    if groups.is_empty() && (options.dnet.is_some() || options.dadr.is_some()) {
        return Err(Fault::BadValue(Word::Address));
    }
    Ok(())
}

/// What the words of `bac keep` ask for: a run that begins at this moment.
#[tactic(auto, unfolding(crate::specs::Orders::order_in))]
pub fn read_keep(alloc: Global, keep: &Keep, begun: Stamp) -> Result<Order, Fault>
    ensures { Makes order_as (order_in keep.now begun) result }
{
    way_to(keep.groups.as_slice(), &keep.options)?;
    let named = all_in(alloc, &keep.options, keep.groups.as_slice())?;
    let sending = sending_in(&keep.options)?;
    let fetching = fetching_in(&keep.options)?;
    Ok(Order {
        run: Run {
            moment: moment_text(alloc, begun)?,
            named,
            options: options_for(keep.at_once, &sending, &fetching, begun),
        },
        local: own_address(sending.local),
        wait: keep.wait,
    })
}

/// What the words of `bac keep --stop` stop: the logs that they name of one device, or all of it.
pub fn read_stop(alloc: Global, keep: &Keep) -> Result<Vec<Named>, Fault>
    ensures { Makes (λ all. map named_as all.items) (stop_in keep.now) result }
{
    match keep.groups.as_slice() {
        [group] => {
            let mut all = Vec::new(alloc);
            all.push(named_in(alloc, &keep.options, group)?)?;
            Ok(all)
        }
        _ => Err(Fault::BadValue(Word::Stop)),
    }
}
