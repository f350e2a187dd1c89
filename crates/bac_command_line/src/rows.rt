//! What the matches of a tool say of a word or an option.

ghost use Rattle.std.specs.Prelude.{◌≡◌, map, option_map, IfOk};
ghost use Rattle.clap.specs.Words.{rows_of, found_of};
ghost use Rattle.bac_command_line.specs.Steps.{Makes};
ghost use Rattle.bac_command_line.specs.Rows.{is_long_text, is_said, text_at, number_at};
ghost use Rattle.bac_command_line.specs.Rows.{maybe_number_at};
ghost use Rattle.bac_command_line.specs.Rows.{address_at, local_at, addresses_in, is_input};
ghost use Rattle.bac_command_line.specs.Rows.{stations_in};
ghost use Rattle.bac_command_line.specs.Rows.{form_at, stations_at};

use crate::address::address;
use crate::addresses::Addresses;
use crate::fault::WordsFault;
use crate::job::Stations;
use crate::name::Name;
use crate::network::stations;
use crate::numbers::{number, octet, short};
use crate::word::Word;
use bac_form::Form;
use bac_wire::Address;
use clap::ArgMatches;
use std::alloc::{AllocError, Global};

/// The first value of a word or an option.
pub(crate) fn text<'a>(matches: &ArgMatches<'a>, word: Word) -> Option<&'a str>
    ensures { option_map (λ s. s.now) result ≡ text_at word (rows_of (found_of matches.now)) }
{
    matches.get_str(word.name())
}

/// A text that is owned.
pub(crate) fn name_of(alloc: Global, text: &str) -> Result<Name, AllocError>
    ensures { IfOk result (λ name. name ≡ text.now) }
{
    Ok(Name::of(String::from_str(alloc, text)?))
}

/// What a word or an option says, if it is there.
pub(crate) fn name_at(
    alloc: Global,
    matches: &ArgMatches,
    word: Word,
) -> Result<Option<Name>, AllocError>
    ensures { IfOk result (λ name. name ≡ text_at word (rows_of (found_of matches.now))) }
{
    match text(matches, word) {
        Some(text) => Ok(Some(name_of(alloc, text)?)),
        None => Ok(None),
    }
}

/// Whether an option without a value was given.
pub(crate) fn is_said(matches: &ArgMatches, word: Word) -> bool
    ensures { result ≡ is_said word (rows_of (found_of matches.now)) }
{
    match text(matches, word) {
        Some(text) => text.as_bytes() == b"true".as_slice(),
        None => false,
    }
}

/// In which form records are printed: in lines, as CSV or as JSON, of which one alone is said.
pub(crate) fn form_at(matches: &ArgMatches) -> Result<Form, Word>
    ensures { result ≡ form_at (rows_of (found_of matches.now)) }
{
    match (is_said(matches, Word::Csv), is_said(matches, Word::Json)) {
        (false, false) => Ok(Form::Lines),
        (true, false) => Ok(Form::Csv),
        (false, true) => Ok(Form::Json),
        (true, true) => Err(Word::Json),
    }
}

/// Whether a word of a number is digits alone, and more than a number has.
pub(crate) fn is_long_at(matches: &ArgMatches, word: Word) -> bool
    ensures { result ≡ is_long_text word (text_at word (rows_of (found_of matches.now))) }
{
    match text(matches, word) {
        Some(text) => word.is_long(text),
        None => false,
    }
}

pub(crate) fn number_at(matches: &ArgMatches, word: Word, low: u32, high: u32) -> Result<u32, Word>
    ensures { result ≡ number_at word low high (rows_of (found_of matches.now)) }
{
    match text(matches, word) {
        Some(text) => number(text.as_bytes(), low, high).ok_or(word),
        None => Err(word),
    }
}

pub(crate) fn short_at(matches: &ArgMatches, word: Word, high: u16) -> Result<u16, Word>
    ensures { result ≡ number_at word 0 high (rows_of (found_of matches.now)) }
{
    match text(matches, word) {
        Some(text) => short(text.as_bytes(), 0, high).ok_or(word),
        None => Err(word),
    }
}

pub(crate) fn octet_at(matches: &ArgMatches, word: Word, low: u8, high: u8) -> Result<u8, Word>
    ensures { result ≡ number_at word low high (rows_of (found_of matches.now)) }
{
    match text(matches, word) {
        Some(text) => octet(text.as_bytes(), low, high).ok_or(word),
        None => Err(word),
    }
}

/// A number that may be absent.
pub(crate) fn maybe_number_at(
    matches: &ArgMatches,
    word: Word,
    high: u32,
) -> Result<Option<u32>, Word>
    ensures { result ≡ maybe_number_at word 0 high (rows_of (found_of matches.now)) }
{
    let Some(text) = text(matches, word) else {
        return Ok(None);
    };
    match number(text.as_bytes(), 0, high) {
        Some(number) => Ok(Some(number)),
        None => Err(word),
    }
}

/// The same from a least one, if 16 bits do.
pub(crate) fn maybe_short_at(
    matches: &ArgMatches,
    word: Word,
    low: u16,
) -> Result<Option<u16>, Word>
    ensures { result ≡ maybe_number_at word low 65535 (rows_of (found_of matches.now)) }
{
    let Some(text) = text(matches, word) else {
        return Ok(None);
    };
    match short(text.as_bytes(), low, u16::MAX) {
        Some(number) => Ok(Some(number)),
        None => Err(word),
    }
}

pub(crate) fn address_at(matches: &ArgMatches) -> Result<Address, Word>
    ensures { result ≡ address_at (rows_of (found_of matches.now)) }
{
    match text(matches, Word::Address) {
        Some(text) => address(text.as_bytes()).ok_or(Word::Address),
        None => Err(Word::Address),
    }
}

pub(crate) fn local_at(matches: &ArgMatches) -> Result<Option<Address>, Word>
    ensures { result ≡ local_at (rows_of (found_of matches.now)) }
{
    let Some(text) = text(matches, Word::Local) else {
        return Ok(None);
    };
    match address(text.as_bytes()) {
        Some(address) => Ok(Some(address)),
        None => Err(Word::Local),
    }
}

/// The stations that each text says.
fn addresses_in(alloc: Global, texts: &[&str]) -> Result<Addresses, WordsFault>
    ensures { Makes (addresses_in (map (λ text. text.now) texts.now)) result }
{
    let mut list = Vec::new(alloc);
    for text in texts {
        let Some(said) = stations(text.as_bytes()) else {
            return Err(WordsFault::BadValue(Word::Address));
        };
        said.push_to(&mut list)?;
    }
    Ok(Addresses::of(list))
}

/// The one text is `-`, which stands for the lines of standard input.
fn is_input(texts: &[&str]) -> bool
    ensures { result ≡ is_input (map (λ text. text.now) texts.now) }
{
    match texts {
        [text] => text.as_bytes() == b"-".as_slice(),
        _ => false,
    }
}

/// The stations that these texts say.
fn stations_in(alloc: Global, texts: &[&str]) -> Result<Stations, WordsFault>
    ensures { Makes (stations_in (map (λ text. text.now) texts.now)) result }
{
    if is_input(texts) {
        return Ok(Stations::Input);
    }
    let addresses = addresses_in(alloc, texts)?;
    Ok(Stations::Listed(addresses))
}

pub(crate) fn stations_at(alloc: Global, matches: &ArgMatches) -> Result<Stations, WordsFault>
    ensures { Makes (stations_at (rows_of (found_of matches.now))) result }
{
    match matches.get_raw(Word::Address.name()) {
        Some(texts) => stations_in(alloc, texts),
        None => stations_in(alloc, &[]),
    }
}
