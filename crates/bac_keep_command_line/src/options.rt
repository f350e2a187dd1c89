//! How devices are asked, by the options of `bac keep`.

ghost use Rattle.std.specs.Prelude.{◌≡◌, option_map};
ghost use Rattle.bac_command_line.specs.Numbers.{number_in};
ghost use Rattle.bac_command_line.specs.Rows.{route_in};
ghost use Rattle.bac_command_line.specs.declared.word.Word.TheVariants.{Records, Retries, Steps};
ghost use Rattle.bac_command_line.specs.declared.word.Word.TheVariants.{Timeout};
ghost use Rattle.bac_keep_command_line.specs.Options.{fetching_in, route_said, sending_in, way_in};
ghost use Rattle.bac_keep_command_line.specs.Values.{said, said_if, said_or};

use crate::fault::Fault;
use crate::values::{address_if, number, octet, wrong};
use bac_apdu::Route;
use bac_command_line::{KeepOptions, Name, Way, Word, read_route};
use bac_walk::Count;
use bac_wire::Address;

/// How long a reply is waited for, if that is left out, in milliseconds.
const WAIT_MS: u32 = 3000;

/// How often a request is repeated, if that is left out.
const RETRIES: u8 = 3;

/// How requests are sent.
#[derive(Clone, Copy)]
pub(crate) struct Sending {
    /// Our own address; any if it is absent.
    pub local: Option<Address>,
    /// How long a reply is waited for, in milliseconds.
    pub wait_ms: u32,
    /// How often a request is repeated.
    pub retries: u8,
}

/// How records are fetched.
#[derive(Clone, Copy)]
pub(crate) struct Fetching {
    /// After how many replies with records a log ends; none: as many as come.
    pub steps: Option<u32>,
    /// How many records a request asks for.
    pub records: Count,
}

fn wait_in(text: &Option<Name>) -> Result<u32, Fault>
    ensures { result ≡ said_or 3000 (number_in 1 60000) Timeout text.now }
{
    match text {
        Some(text) => number(Word::Timeout, text.as_str(), 1, 60000),
        None => Ok(WAIT_MS),
    }
}

fn retries_in(text: &Option<Name>) -> Result<u8, Fault>
    ensures { result ≡ said_or 3 (number_in 0 10) Retries text.now }
{
    match text {
        Some(text) => octet(Word::Retries, text.as_str(), 0, 10),
        None => Ok(RETRIES),
    }
}

/// How requests are sent.
#[tactic(auto, unfolding(crate::specs::Options::sending_in))]
pub(crate) fn sending_in(options: &KeepOptions) -> Result<Sending, Fault>
    ensures { result ≡ sending_in options.now }
{
    let local = address_if(Word::Local, &options.local)?;
    let wait_ms = wait_in(&options.timeout)?;
    let retries = retries_in(&options.retries)?;
    Ok(Sending {
        local,
        wait_ms,
        retries,
    })
}

fn steps_in(text: &Option<Name>) -> Result<Option<u32>, Fault>
    ensures { result ≡ said_if (number_in 0 4294967295) Steps text.now }
{
    match text {
        Some(text) => match number(Word::Steps, text.as_str(), 0, u32::MAX) {
            Ok(steps) => Ok(Some(steps)),
            Err(fault) => Err(fault),
        },
        None => Ok(None),
    }
}

fn count_in(text: &str) -> Result<Count, Fault>
    ensures { result ≡ said (number_in 1 100) Records text.now }
{
    let number = octet(Word::Records, text, 1, 100)?;
    match Count::new(number) {
        Some(count) => Ok(count),
        None => Err(Fault::BadValue(Word::Records)),
    }
}

fn records_in(text: &Option<Name>) -> Result<Count, Fault>
    ensures { result ≡ said_or 100 (number_in 1 100) Records text.now }
{
    match text {
        Some(text) => count_in(text.as_str()),
        None => Ok(Count::most()),
    }
}

/// How records are fetched.
#[tactic(auto, unfolding(crate::specs::Options::fetching_in))]
pub(crate) fn fetching_in(options: &KeepOptions) -> Result<Fetching, Fault>
    ensures { result ≡ fetching_in options.now }
{
    let steps = steps_in(&options.steps)?;
    let records = records_in(&options.count)?;
    Ok(Fetching { steps, records })
}

/// A text, if there is one.
pub(crate) fn text_of(name: &Option<Name>) -> Option<&str>
    ensures { option_map (λ s. s.now) result ≡ name.now }
{
    match name {
        Some(name) => Some(name.as_str()),
        None => None,
    }
}

/// The place behind a router that two texts say.
pub(crate) fn route_said(net: Option<&str>, address: Option<&str>) -> Result<Option<Route>, Fault>
    ensures { result ≡ route_said (option_map (λ s. s.now) net.entry)
        (route_in (option_map (λ s. s.now) net.entry) (option_map (λ s. s.now) address.entry)) }
{
    match read_route(net, address) {
        Ok(route) => Ok(route),
        Err(word) => Err(wrong(word, net)),
    }
}

/// The place of a device behind a router, if it has one.
pub(crate) fn way_in(options: &KeepOptions, way: &Option<Way>) -> Result<Option<Route>, Fault>
    ensures { result ≡ way_in options.now way.now }
{
    match way {
        Some(way) => route_said(Some(way.dnet.as_str()), Some(way.dadr.as_str())),
        None => route_said(text_of(&options.dnet), text_of(&options.dadr)),
    }
}
