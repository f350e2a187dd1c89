//! The job of each tool, from its matches.

ghost use Rattle.std.specs.Prelude.{◌≡◌};
ghost use Rattle.clap.specs.Words.{rows_of, found_of};
ghost use Rattle.bac_command_line.specs.Steps.{Makes};
ghost use Rattle.bac_command_line.specs.Jobs.{asked_at, max_beside, wi_at, rp_at, tag_at, given_at};
ghost use Rattle.bac_command_line.specs.Jobs.{wp_at};
ghost use Rattle.bac_command_line.specs.Jobs.{from_in, from_at, log_at, logs_at, serve_at};

use crate::fault::WordsFault;
use crate::given::{given, is_tag};
use crate::instances::instances_at;
use crate::job::{
    Asked, Discovery, Given, Job, LogListing, LogReading, PropertyReading, PropertyWriting,
    ServedDevice,
};
use crate::numbers::number;
use crate::route::route_at;
use crate::rows::{
    address_at, form_at, is_said, local_at, maybe_number_at, maybe_short_at, number_at, octet_at,
    short_at, stations_at, text,
};
use crate::word::Word;
use clap::ArgMatches;
use std::alloc::Global;

/// The greatest object instance, and the greatest object type (clause 20.2.14).
const MAX_INSTANCE: u32 = 4_194_303;

const MAX_TYPE: u16 = 1023;

#[tactic(auto, unfolding(crate::specs::Jobs::asked_at))]
fn asked_at(matches: &ArgMatches) -> Result<Asked, Word>
    ensures { result ≡ asked_at (rows_of (found_of matches.now)) }
{
    let address = address_at(matches)?;
    let local = local_at(matches)?;
    let timeout = number_at(matches, Word::Timeout, 1, 60000)?;
    let retries = octet_at(matches, Word::Retries, 0, 10)?;
    let route = route_at(matches)?;
    Ok(Asked {
        address,
        local,
        timeout,
        retries,
        route,
    })
}

/// `--max`, which goes with `--min` only.
fn max_beside(min: Option<u32>, max: Option<u32>) -> Result<Option<u32>, Word>
    ensures { result ≡ max_beside min max }
{
    if min.is_none() && max.is_some() {
        return Err(Word::Max);
    }
    Ok(max)
}

#[tactic(auto, unfolding(crate::specs::Jobs::wi_at))]
pub(crate) fn wi(alloc: Global, matches: &ArgMatches) -> Result<Job, WordsFault>
    ensures { Makes (wi_at (rows_of (found_of matches.now))) result }
{
    let stations = stations_at(alloc, matches)?;
    let min = maybe_number_at(matches, Word::Min, MAX_INSTANCE)?;
    let highest = maybe_number_at(matches, Word::Max, MAX_INSTANCE)?;
    let max = max_beside(min, highest)?;
    let dnet = maybe_short_at(matches, Word::Dnet, 1)?;
    let local = local_at(matches)?;
    let timeout = number_at(matches, Word::Timeout, 1, 60000)?;
    let trace = is_said(matches, Word::Trace);
    Ok(Job::Wi(Discovery {
        stations,
        min,
        max,
        dnet,
        local,
        timeout,
        trace,
    }))
}

#[tactic(auto, unfolding(crate::specs::Jobs::rp_at))]
pub(crate) fn rp(matches: &ArgMatches) -> Result<Job, Word>
    ensures { result ≡ rp_at (rows_of (found_of matches.now)) }
{
    let asked = asked_at(matches)?;
    let object_type = short_at(matches, Word::ObjectType, MAX_TYPE)?;
    let instance = number_at(matches, Word::Instance, 0, MAX_INSTANCE)?;
    let property = number_at(matches, Word::Property, 0, u32::MAX)?;
    let index = maybe_number_at(matches, Word::Index, u32::MAX)?;
    let numbers = is_said(matches, Word::Numbers);
    let trace = is_said(matches, Word::Trace);
    Ok(Job::Rp(PropertyReading {
        asked,
        object_type,
        instance,
        property,
        index,
        numbers,
        trace,
    }))
}

fn tag_at(matches: &ArgMatches) -> Result<u8, Word>
    ensures { result ≡ tag_at (rows_of (found_of matches.now)) }
{
    let tag = octet_at(matches, Word::Tag, 0, 9)?;
    if is_tag(tag) { Ok(tag) } else { Err(Word::Tag) }
}

#[tactic(auto, unfolding(crate::specs::Jobs::given_at))]
fn given_at(alloc: Global, matches: &ArgMatches) -> Result<Given, WordsFault>
    ensures { Makes (given_at (rows_of (found_of matches.now))) result }
{
    let tag = tag_at(matches)?;
    match given(alloc, tag, text(matches, Word::Value))? {
        Some(given) => Ok(given),
        None => Err(WordsFault::BadValue(Word::Value)),
    }
}

#[tactic(auto, unfolding(crate::specs::Jobs::wp_at))]
pub(crate) fn wp(alloc: Global, matches: &ArgMatches) -> Result<Job, WordsFault>
    ensures { Makes (wp_at (rows_of (found_of matches.now))) result }
{
    let asked = asked_at(matches)?;
    let object_type = short_at(matches, Word::ObjectType, MAX_TYPE)?;
    let instance = number_at(matches, Word::Instance, 0, MAX_INSTANCE)?;
    let property = number_at(matches, Word::Property, 0, u32::MAX)?;
    let priority = octet_at(matches, Word::Priority, 0, 16)?;
    let given = given_at(alloc, matches)?;
    let index = maybe_number_at(matches, Word::Index, u32::MAX)?;
    let trace = is_said(matches, Word::Trace);
    Ok(Job::Wp(PropertyWriting {
        asked,
        object_type,
        instance,
        property,
        priority,
        given,
        index,
        trace,
    }))
}

/// A number from 1, or `oldest`.
#[tactic(auto, unfolding(crate::specs::Jobs::from_in))]
fn from_in(word: &[u8]) -> Option<Option<u32>>
    ensures { result ≡ from_in word.now }
{
    if word == b"oldest".as_slice() {
        Some(None)
    } else {
        Some(Some(number(word, 1, u32::MAX)?))
    }
}

fn from_at(matches: &ArgMatches) -> Result<Option<u32>, Word>
    ensures { result ≡ from_at (rows_of (found_of matches.now)) }
{
    match text(matches, Word::From) {
        Some(text) => from_in(text.as_bytes()).ok_or(Word::From),
        None => Err(Word::From),
    }
}

#[tactic(auto, unfolding(crate::specs::Jobs::log_at))]
pub(crate) fn log(matches: &ArgMatches) -> Result<Job, Word>
    ensures { result ≡ log_at (rows_of (found_of matches.now)) }
{
    let asked = asked_at(matches)?;
    let instance = number_at(matches, Word::Instance, 0, MAX_INSTANCE)?;
    let from = from_at(matches)?;
    let steps = number_at(matches, Word::Steps, 0, u32::MAX)?;
    let count = octet_at(matches, Word::Records, 1, 100)?;
    let form = form_at(matches)?;
    let trace = is_said(matches, Word::Trace);
    Ok(Job::Log(LogReading {
        asked,
        instance,
        from,
        steps,
        count,
        form,
        trace,
    }))
}

#[tactic(auto, unfolding(crate::specs::Jobs::logs_at))]
pub(crate) fn logs(alloc: Global, matches: &ArgMatches) -> Result<Job, WordsFault>
    ensures { Makes (logs_at (rows_of (found_of matches.now))) result }
{
    let asked = asked_at(matches)?;
    let instances = instances_at(alloc, matches)?;
    let trace = is_said(matches, Word::Trace);
    Ok(Job::Logs(LogListing {
        asked,
        instances,
        trace,
    }))
}

#[tactic(auto, unfolding(crate::specs::Jobs::serve_at))]
pub(crate) fn serve(matches: &ArgMatches) -> Result<Job, Word>
    ensures { result ≡ serve_at (rows_of (found_of matches.now)) }
{
    let address = address_at(matches)?;
    let count = number_at(matches, Word::Count, 0, u32::MAX)?;
    Ok(Job::Serve(ServedDevice { address, count }))
}
