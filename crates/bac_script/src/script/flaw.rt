//! What is wrong with a bad line.

ghost use Rattle.std.specs.Prelude.{◌≡◌, ◌∷◌, []};
ghost use Rattle.std.specs.Char.{is_ascii_digit};
ghost use Rattle.std.specs.List.{list_all};
ghost use Rattle.std.specs.Option.{option_map};
ghost use Rattle.std.specs.Str.Lines.{lines};
ghost use Rattle.bac_script.specs.Flaw.{blank_at, flaw_from, flaw_of, flaw_there, is_long};
ghost use Rattle.bac_script.specs.Flaw.{is_number, is_wanted, kind_of_words, line_at, line_kind};
ghost use Rattle.bac_script.specs.Flaw.{no_kind, words_left, words_wanted, wrong_word};
ghost use Rattle.bac_script.specs.Script.Words.{words_of};

use crate::script::hexadecimal::{LONGEST, octets_in};
use crate::script::line::{kind_in, start_in, walked_log};
use crate::script::lines::{split_line, without_return};
use crate::script::number::{i32_in, u16_in, u32_in};
use crate::script::stamp::stamp_in;
use crate::script::words::{split_word, text_in};

/// A kind of line, which its first word says.
#[derive(Clone, Copy, Debug, PartialEq, Eq)]
pub enum LineKind {
    /// `device INSTANCE NAME VENDOR REPLY STAMP`
    Device,
    /// `binary INSTANCE NAME DEFAULT`
    Binary,
    /// `multistate INSTANCE NAME STATES DEFAULT`
    Multistate,
    /// `integer INSTANCE NAME DEFAULT`
    Integer,
    /// `log INSTANCE NAME KIND SOURCE CAPACITY INTERVAL LOGGED`
    Log,
    /// `rx HEX`
    Rx,
    /// `clock STAMP`
    Clock,
    /// `sample INSTANCE`
    Sample,
    /// `walk LOG FROM STEPS`
    Walk,
}

/// What a word has to be.
#[derive(Clone, Copy, Debug, PartialEq, Eq)]
pub enum Wanted {
    /// A number of 32 bits.
    Number,
    /// A number of 16 bits.
    Short,
    /// The instance of an object of the device: a number of 32 bits, of which 0 to 4194302 can be
    /// built.
    Object,
    /// How many octets a reply has: a number of 16 bits, of which 50 to 1476 can be built.
    Reply,
    /// A default of a Binary Value, a BACnetBinaryPV: a number of 32 bits, of which 0 and 1 can be
    /// built.
    Binary,
    /// How many states a Multi-state Value has: a number of 32 bits, of which 1 to 65535 can be
    /// built.
    States,
    /// A default of a Multi-state Value: a number of 32 bits, of which 1 to its states can be
    /// built.
    State,
    /// How many records a log holds: a number of 32 bits, of which 1 to 65535 can be built.
    Capacity,
    /// Hundredths of a second: a number of 32 bits, of which 0, and 100 and more can be built.
    Interval,
    /// A text in UTF-8.
    Name,
    /// An integer of 32 bits.
    Integer,
    /// A moment.
    Stamp,
    /// The kind of an object.
    Kind,
    /// An instance number, which has 22 bits.
    Instance,
    /// The octets of a datagram, in hexadecimal digits.
    Digits,
    /// A sequence number, or `oldest`.
    Start,
}

/// What is wrong with a bad line. Words are counted from 1.
#[derive(Clone, Copy, Debug, PartialEq, Eq)]
pub enum Flaw {
    /// Its first word is no kind of line.
    Kind,
    /// The same in a configuration, which has no events.
    Described,
    /// A line of its kind has more words, or fewer.
    Count(LineKind),
    /// This word isn't what it has to be.
    Word(usize, Wanted),
    /// This word is a number, as it has to be, but of more than ten digits.
    Long(usize, Wanted),
    /// A blank ends it.
    Blank,
    /// One blank too many stands before this word.
    Blanks(usize),
    /// It is a line, and stands in the wrong place.
    Place(LineKind),
    /// It is an event's, and a configuration has none.
    Event,
}

/// Whether a word is what it has to be.
fn is_wanted(wanted: Wanted, word: &[u8]) -> bool
    ensures { result ≡ is_wanted wanted word.now }
{
    match wanted {
        Wanted::Number | Wanted::Object | Wanted::Binary | Wanted::States => u32_in(word).is_some(),
        Wanted::State | Wanted::Capacity | Wanted::Interval => u32_in(word).is_some(),
        Wanted::Short | Wanted::Reply => u16_in(word).is_some(),
        Wanted::Name => text_in(word).is_some(),
        Wanted::Integer => i32_in(word).is_some(),
        Wanted::Stamp => stamp_in(word).is_some(),
        Wanted::Kind => kind_in(word).is_some(),
        Wanted::Instance => walked_log(word).is_some(),
        Wanted::Digits => octets_in(word, &mut [0; LONGEST]).is_some(),
        Wanted::Start => start_in(word).is_some(),
    }
}

/// What the words after the first one have to be.
fn words_wanted<'a>(kind: LineKind) -> &'a [Wanted]
    ensures { result.now ≡ words_wanted kind }
{
    match kind {
        LineKind::Device => &[
            Wanted::Object,
            Wanted::Name,
            Wanted::Short,
            Wanted::Reply,
            Wanted::Stamp,
        ],
        LineKind::Binary => &[Wanted::Object, Wanted::Name, Wanted::Binary],
        LineKind::Multistate => &[Wanted::Object, Wanted::Name, Wanted::States, Wanted::State],
        LineKind::Integer => &[Wanted::Object, Wanted::Name, Wanted::Integer],
        LineKind::Log => &[
            Wanted::Object,
            Wanted::Name,
            Wanted::Kind,
            Wanted::Instance,
            Wanted::Capacity,
            Wanted::Interval,
            Wanted::Number,
        ],
        LineKind::Rx => &[Wanted::Digits],
        LineKind::Clock => &[Wanted::Stamp],
        LineKind::Sample => &[Wanted::Number],
        LineKind::Walk => &[Wanted::Instance, Wanted::Start, Wanted::Number],
    }
}

/// The kind of a line, by its first word.
pub(crate) fn line_kind(word: &[u8]) -> Option<LineKind>
    ensures { result ≡ line_kind word.now }
{
    if word == b"device".as_slice() {
        return Some(LineKind::Device);
    }
    if word == b"binary".as_slice() {
        return Some(LineKind::Binary);
    }
    if word == b"multistate".as_slice() {
        return Some(LineKind::Multistate);
    }
    if word == b"integer".as_slice() {
        return Some(LineKind::Integer);
    }
    if word == b"log".as_slice() {
        return Some(LineKind::Log);
    }
    if word == b"rx".as_slice() {
        return Some(LineKind::Rx);
    }
    if word == b"clock".as_slice() {
        return Some(LineKind::Clock);
    }
    if word == b"sample".as_slice() {
        return Some(LineKind::Sample);
    }
    if word == b"walk".as_slice() {
        return Some(LineKind::Walk);
    }
    None
}

/// The first word, and what follows it, if anything does.
pub(crate) fn first_word(text: &[u8]) -> (&[u8], Option<&[u8]>)
    ensures { words_of text.now
        ≡ result.0.now ∷ words_left (option_map (λ rest. rest.now) result.1) }
{
    match split_word(text) {
        Some((word, rest)) => (word, Some(rest)),
        None => (text, None),
    }
}

/// Whether a number is wanted, which has at most ten digits.
fn is_number(wanted: Wanted) -> bool
    ensures { result ≡ is_number wanted }
{
    !matches!(
        wanted,
        Wanted::Name | Wanted::Stamp | Wanted::Kind | Wanted::Digits
    )
}

/// Whether all are decimal digits.
fn are_digits(word: &[u8]) -> bool
    ensures { result ≡ list_all is_ascii_digit word.now }
{
    for c in word {
        if !c.is_ascii_digit() {
            return false;
        }
    }
    true
}

/// Whether a number is wanted, and the word is one of more than ten digits.
fn is_long(wanted: Wanted, word: &[u8]) -> bool
    ensures { result ≡ is_long wanted word.now }
{
    is_number(wanted) && word.len() > 10 && are_digits(word)
}

/// The word with this number is empty.
fn blank_at(place: usize, more: Option<&[u8]>) -> Flaw
    ensures { result ≡ blank_at place (words_left (option_map (λ rest. rest.now) more.entry)) }
{
    match more {
        Some(_) => Flaw::Blanks(place),
        None => Flaw::Blank,
    }
}

/// The word with this number isn't what it has to be.
fn wrong_word(place: usize, wanted: Wanted, word: &[u8], more: Option<&[u8]>) -> Flaw
    ensures { result
        ≡ wrong_word place wanted word.now (words_left (option_map (λ rest. rest.now) more.entry)) }
{
    if word.is_empty() {
        return blank_at(place, more);
    }
    if is_long(wanted, word) {
        Flaw::Long(place, wanted)
    } else {
        Flaw::Word(place, wanted)
    }
}

/// The word with this number is one too many.
fn extra_word(kind: LineKind, place: usize, text: &[u8]) -> Flaw
    ensures { result ≡ flaw_from kind place [] (words_of text.now) }
{
    let (word, more) = first_word(text);
    if word.is_empty() {
        blank_at(place, more)
    } else {
        Flaw::Count(kind)
    }
}

/// The first word says no kind of line.
fn no_kind(word: &[u8], more: Option<&[u8]>) -> Flaw
    ensures { result ≡ no_kind word.now (words_left (option_map (λ rest. rest.now) more.entry)) }
{
    if word.is_empty() {
        blank_at(1, more)
    } else {
        Flaw::Kind
    }
}

/// What is wrong with the words after the first one.
fn flaw_of_words(kind: LineKind, words: Option<&[u8]>) -> Flaw
    ensures { result ≡ flaw_from kind 2 (words_wanted kind)
        (words_left (option_map (λ rest. rest.now) words.entry)) }
{
    let mut rest = words;
    let mut place = 2;
    for wanted in words_wanted(kind) {
        let Some(text) = rest else {
            return Flaw::Count(kind);
        };
        let (word, more) = first_word(text);
        if !is_wanted(*wanted, word) {
            return wrong_word(place, *wanted, word, more);
        }
        rest = more;
        place += 1;
    }
    match rest {
        Some(text) => extra_word(kind, place, text),
        None => Flaw::Place(kind),
    }
}

/// What is wrong with a bad line.
#[tactic(auto, unfolding(crate::specs::Flaw::flaw_of))]
pub(crate) fn flaw_of(text: &[u8]) -> Flaw
    ensures { result ≡ flaw_of text.now }
{
    let (word, words) = first_word(text);
    match line_kind(word) {
        Some(kind) => flaw_of_words(kind, words),
        None => no_kind(word, words),
    }
}

/// The kind of a line, which its first word says.
fn kind_of_line(text: &[u8]) -> Option<LineKind>
    ensures { result ≡ kind_of_words (words_of text.now) }
{
    let (word, _) = first_word(text);
    line_kind(word)
}

/// What is wrong with a bad line of a configuration.
#[tactic(auto, unfolding(crate::specs::Flaw::flaw_there))]
pub(crate) fn flaw_there(text: &[u8]) -> Flaw
    ensures { result ≡ flaw_there text.now }
{
    let flaw = flaw_of(text);
    match kind_of_line(text) {
        Some(LineKind::Rx | LineKind::Clock | LineKind::Sample | LineKind::Walk) => Flaw::Event,
        Some(_) => flaw,
        None if flaw == Flaw::Kind => Flaw::Described,
        None => flaw,
    }
}

/// The line with this number, counted from 1.
pub(crate) fn line_at(script: &[u8], number: usize) -> &[u8]
    ensures { result.now ≡ line_at number (lines script.now) }
{
    let mut rest = script;
    let mut left = number;
    while let Some((line, more)) = split_line(rest) {
        if left <= 1 {
            return without_return(line);
        }
        rest = more;
        left -= 1;
    }
    if left <= 1 { rest } else { &[] }
}
