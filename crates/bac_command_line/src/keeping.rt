//! The jobs of `keep`, `kept` and `check`, from their matches.

ghost use Rattle.std.specs.Prelude.{◌≡◌, ◌++◌, ◌∷◌, List, [], IfOk, OnOk, map};
ghost use Rattle.clap.specs.Words.{Text, rows_of, found_of};
ghost use Rattle.bac_command_line.specs.Steps.{Makes};
ghost use Rattle.bac_command_line.specs.Rows.{texts_at};
ghost use Rattle.bac_command_line.specs.Groups.{group_at, groups_at, groups_from, with_instance};
ghost use Rattle.bac_command_line.specs.declared.word.Word.TheVariants.{Instance};
ghost use Rattle.bac_command_line.specs.Jobs.{file_at, keep_options_at, keep_at, kept_at, check_at};
ghost use Rattle.bac_command_line.specs.Jobs.{address_beside, stop_beside, wait_at};

use crate::dates::extent_at;
use crate::fault::WordsFault;
use crate::group::{Group, Groups};
use crate::job::{Check, Job, Keep, KeepOptions, Kept};
use crate::name::Name;
use crate::names::Names;
use crate::numbers::are_digits;
use crate::rows::{form_at, is_said, name_at, name_of, number_at, text};
use crate::word::Word;
use clap::ArgMatches;
use std::alloc::{AllocError, Global};
use std::mem;

/// A device, none of whose logs is named.
fn group_at(alloc: Global, address: &str) -> Result<Group, AllocError>
    ensures { IfOk result (λ group. group ≡ group_at address.now) }
{
    Ok(Group {
        address: name_of(alloc, address)?,
        instances: Names::of(Vec::new(alloc)),
        way: None,
    })
}

/// One more instance of a group.
fn add_instance(alloc: Global, group: &mut Group, word: &str) -> Result<(), AllocError>
    ensures { OnOk result (group.new ≡ with_instance group.old word.now) }
{
    group.instances.push(name_of(alloc, word)?)
}

/// Puts a group behind the others, and the next one, at an address, in its place.
fn begin_group(
    alloc: Global,
    list: &mut Vec<Group>,
    group: &mut Group,
    address: &str,
) -> Result<(), AllocError>
    ensures { OnOk result ((list.new.items ≡ list.old.items ++ group.old ∷ [])
        × (group.new ≡ group_at address.now)) }
{
    let next = group_at(alloc, address)?;
    list.push(mem::replace(group, next))?;
    Ok(())
}

/// A word behind the groups that are done and the one that has begun.
fn add_word(
    alloc: Global,
    list: &mut Vec<Group>,
    group: &mut Group,
    word: &str,
) -> Result<(), AllocError>
    ensures { OnOk result ((more : List Text)
        → list.old.items ++ groups_from group.old (word.now ∷ more)
        ≡ list.new.items ++ groups_from group.new more) }
{
    if are_digits(word.as_bytes()) {
        return add_instance(alloc, group, word);
    }
    begin_group(alloc, list, group, word)
}

/// The groups of a first address and the words behind it.
fn groups_of(alloc: Global, address: &str, words: &[&str]) -> Result<Groups, AllocError>
    ensures { IfOk result (λ groups. groups
        ≡ groups_from (group_at address.now) (map (λ word. word.now) words.now)) }
{
    let mut list = Vec::new(alloc);
    let mut group = group_at(alloc, address)?;
    for word in words {
        add_word(alloc, &mut list, &mut group, word)?;
    }
    list.push(group)?;
    Ok(Groups::of(list))
}

/// The groups of the words behind FILE, of which the first is this address.
fn groups_behind(alloc: Global, address: &str, matches: &ArgMatches) -> Result<Groups, AllocError>
    ensures { IfOk result (λ groups. groups ≡ groups_from (group_at address.now)
        (texts_at Instance (rows_of (found_of matches.now)))) }
{
    match matches.get_raw(Word::Instance.name()) {
        Some(words) => groups_of(alloc, address, words),
        None => groups_of(alloc, address, &[]),
    }
}

/// The groups of the words behind FILE.
fn groups_at(alloc: Global, matches: &ArgMatches) -> Result<Groups, AllocError>
    ensures { IfOk result (λ groups. groups ≡ groups_at (rows_of (found_of matches.now))) }
{
    match text(matches, Word::Address) {
        Some(address) => groups_behind(alloc, address, matches),
        None => Ok(Groups::of(Vec::new(alloc))),
    }
}

fn file_at(alloc: Global, matches: &ArgMatches) -> Result<Name, WordsFault>
    ensures { Makes (file_at (rows_of (found_of matches.now))) result }
{
    match name_at(alloc, matches, Word::File)? {
        Some(file) => Ok(file),
        None => Err(WordsFault::BadValue(Word::File)),
    }
}

fn keep_options_at(alloc: Global, matches: &ArgMatches) -> Result<KeepOptions, AllocError>
    ensures { IfOk result (λ options. options ≡ keep_options_at (rows_of (found_of matches.now))) }
{
    Ok(KeepOptions {
        steps: name_at(alloc, matches, Word::Steps)?,
        count: name_at(alloc, matches, Word::Records)?,
        timeout: name_at(alloc, matches, Word::Timeout)?,
        local: name_at(alloc, matches, Word::Local)?,
        retries: name_at(alloc, matches, Word::Retries)?,
        dnet: name_at(alloc, matches, Word::Dnet)?,
        dadr: name_at(alloc, matches, Word::Dadr)?,
    })
}

/// That logs are stopped is said of one device.
fn stop_beside(groups: &[Group], stop: bool) -> Result<bool, Word>
    ensures { result ≡ stop_beside groups.now stop }
{
    if stop && groups.len() != 1 {
        return Err(Word::Stop);
    }
    Ok(stop)
}

/// How many seconds a file that is in use is waited for.
fn wait_at(matches: &ArgMatches) -> Result<u32, Word>
    ensures { result ≡ wait_at (rows_of (found_of matches.now)) }
{
    number_at(matches, Word::Wait, 0, 3600)
}

#[tactic(auto, unfolding(crate::specs::Jobs::keep_at))]
pub(crate) fn keep(alloc: Global, matches: &ArgMatches) -> Result<Job, WordsFault>
    ensures { Makes (keep_at (rows_of (found_of matches.now))) result }
{
    let file = file_at(alloc, matches)?;
    let groups = groups_at(alloc, matches)?;
    let stop = stop_beside(groups.as_slice(), is_said(matches, Word::Stop))?;
    let part = number_at(matches, Word::Part, 1, 4096)?;
    let at_once = number_at(matches, Word::AtOnce, 1, 1024)?;
    let wait = wait_at(matches)?;
    let quiet = is_said(matches, Word::Quiet);
    let trace = is_said(matches, Word::Trace);
    let options = keep_options_at(alloc, matches)?;
    Ok(Job::Keep(Keep {
        file,
        groups,
        stop,
        part,
        at_once,
        wait,
        quiet,
        trace,
        options,
    }))
}

/// The device of `bac kept`, without which no place behind a router is said.
fn address_beside(
    dnet: &Option<Name>,
    dadr: &Option<Name>,
    address: Option<Name>,
) -> Result<Option<Name>, Word>
    ensures { result ≡ address_beside dnet.now dadr.now address }
{
    if address.is_none() && (dnet.is_some() || dadr.is_some()) {
        return Err(Word::Address);
    }
    Ok(address)
}

#[tactic(auto, unfolding(crate::specs::Jobs::kept_at))]
pub(crate) fn kept(alloc: Global, matches: &ArgMatches) -> Result<Job, WordsFault>
    ensures { Makes (kept_at (rows_of (found_of matches.now))) result }
{
    let file = file_at(alloc, matches)?;
    let dnet = name_at(alloc, matches, Word::Dnet)?;
    let dadr = name_at(alloc, matches, Word::Dadr)?;
    let address = address_beside(&dnet, &dadr, name_at(alloc, matches, Word::Address)?)?;
    let instance = name_at(alloc, matches, Word::Instance)?;
    let extent = extent_at(alloc, matches)?;
    let form = form_at(matches)?;
    let wait = wait_at(matches)?;
    Ok(Job::Kept(Kept {
        file,
        address,
        instance,
        dnet,
        dadr,
        extent,
        form,
        wait,
    }))
}

#[tactic(auto, unfolding(crate::specs::Jobs::check_at))]
pub(crate) fn check(alloc: Global, matches: &ArgMatches) -> Result<Job, WordsFault>
    ensures { Makes (check_at (rows_of (found_of matches.now))) result }
{
    let file = file_at(alloc, matches)?;
    let wait = wait_at(matches)?;
    let quiet = is_said(matches, Word::Quiet);
    Ok(Job::Check(Check { file, wait, quiet }))
}
