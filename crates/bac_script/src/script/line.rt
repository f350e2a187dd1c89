//! What one line of a script says.

ghost use Rattle.std.specs.Prelude.{◌≡◌, ◌<◌, IfOk, IfSome};
ghost use Rattle.std.specs.Option.{option_map};
ghost use Rattle.bac_wire.specs.OptionChain.{GivesSome};
ghost use Rattle.bac_script.specs.Script.Line.{binary_line, clock_line, device_line, integer_line};
ghost use Rattle.bac_script.specs.Script.Line.{is_silent, kind_in, line_in, log_line};
ghost use Rattle.bac_script.specs.Script.Line.{multistate_line, rx_line, sample_line, source_in};
ghost use Rattle.bac_script.specs.Script.Line.{start_in, walk_line, walked_log};
ghost use Rattle.bac_script.specs.Views.{binary_of, device_of, integer_of, line_of, log_of};
ghost use Rattle.bac_script.specs.Views.{multistate_of};
ghost use Rattle.bac_script.specs.Script.Words.{words_of};

use crate::script::flaw::{LineKind, line_kind};
use crate::script::hexadecimal::{LONGEST, octets_in};
use crate::script::number::{i32_in, u16_in, u32_in};
use crate::script::stamp::stamp_in;
use crate::script::words::{last_word, split_two, split_word, text_in, three_words};
use bac_device::{DeviceLine, Name, ObjectLine};
use bac_wire::{ObjectId, Stamp};
use std::alloc::{AllocError, Global};

/// What happens to a device.
#[derive(Clone, Copy)]
pub(crate) enum Event<'r> {
    /// It receives a datagram of these octets.
    Received(&'r [u8]),
    /// Its clock comes to a moment.
    Clocked(Stamp),
    /// Its Trend Log with this instance takes a sample.
    Sampled(u32),
    /// A client walks a trend log.
    Walked(WalkWords),
}

/// A walk of a trend log: from a sequence number or, without one, from the oldest record, in at
/// most so many steps.
#[derive(Clone, Copy)]
pub(crate) struct WalkWords {
    pub log: ObjectId,
    pub from: Option<u32>,
    pub steps: u32,
}

/// What a line says.
#[derive(Drop)]
pub(crate) enum Line<'r> {
    /// The device.
    Device(DeviceLine),
    /// An object of the device.
    Object(ObjectLine),
    /// An event.
    Happens(Event<'r>),
}

/// What the words of a device line say; its name still lies in the script.
#[tactic(auto, unfolding(crate::specs::Script::Line::device_line))]
fn device_words(words: &[u8]) -> Option<(u32, &str, u16, u16, Stamp)>
    ensures { GivesSome (λ x. device_of x.0 x.1.now x.2 x.3 x.4) result
        (device_line (words_of words.now)) }
{
    let (instance, name, rest) = split_two(words)?;
    let (vendor, reply_size, clock) = three_words(rest)?;
    match (
        u32_in(instance),
        text_in(name),
        u16_in(vendor),
        u16_in(reply_size),
        stamp_in(clock),
    ) {
        (Some(instance), Some(name), Some(vendor), Some(reply_size), Some(clock)) => {
            Some((instance, name, vendor, reply_size, clock))
        }
        _ => None,
    }
}

/// The line of a device.
fn device_line<'r>(alloc: Global, words: &[u8]) -> Result<Option<Line<'r>>, AllocError>
    ensures { IfOk result (λ line. device_line (words_of words.now) ≡ option_map line_of line) }
{
    let Some((instance, name, vendor, reply_size, clock)) = device_words(words) else {
        return Ok(None);
    };
    let name = Name::of(String::from_str(alloc, name)?);
    Ok(Some(Line::Device(DeviceLine {
        instance,
        name,
        vendor,
        reply_size,
        clock,
    })))
}

/// What the words of a binary line say; its name still lies in the script.
#[tactic(auto, unfolding(crate::specs::Script::Line::binary_line))]
fn binary_words(words: &[u8]) -> Option<(u32, &str, u32)>
    ensures { GivesSome (λ x. binary_of x.0 x.1.now x.2) result (binary_line (words_of words.now)) }
{
    let (instance, name, default) = three_words(words)?;
    match (u32_in(instance), text_in(name), u32_in(default)) {
        (Some(instance), Some(name), Some(default)) => Some((instance, name, default)),
        _ => None,
    }
}

/// The line of a Binary Value.
fn binary_line<'r>(alloc: Global, words: &[u8]) -> Result<Option<Line<'r>>, AllocError>
    ensures { IfOk result (λ line. binary_line (words_of words.now) ≡ option_map line_of line) }
{
    let Some((instance, name, default)) = binary_words(words) else {
        return Ok(None);
    };
    let name = Name::of(String::from_str(alloc, name)?);
    Ok(Some(Line::Object(ObjectLine::Binary {
        instance,
        name,
        default,
    })))
}

/// What the words of a multi-state line say; its name still lies in the script.
#[tactic(auto, unfolding(crate::specs::Script::Line::multistate_line))]
fn multistate_words(words: &[u8]) -> Option<(u32, &str, u32, u32)>
    ensures { GivesSome (λ x. multistate_of x.0 x.1.now x.2 x.3) result
        (multistate_line (words_of words.now)) }
{
    let (instance, rest) = split_word(words)?;
    let (name, states, default) = three_words(rest)?;
    match (
        u32_in(instance),
        text_in(name),
        u32_in(states),
        u32_in(default),
    ) {
        (Some(instance), Some(name), Some(states), Some(default)) => {
            Some((instance, name, states, default))
        }
        _ => None,
    }
}

/// The line of a Multi-state Value.
fn multistate_line<'r>(alloc: Global, words: &[u8]) -> Result<Option<Line<'r>>, AllocError>
    ensures { IfOk result (λ line. multistate_line (words_of words.now) ≡ option_map line_of line) }
{
    let Some((instance, name, states, default)) = multistate_words(words) else {
        return Ok(None);
    };
    let name = Name::of(String::from_str(alloc, name)?);
    Ok(Some(Line::Object(ObjectLine::Multistate {
        instance,
        name,
        states,
        default,
    })))
}

/// What the words of an integer line say; its name still lies in the script.
#[tactic(auto, unfolding(crate::specs::Script::Line::integer_line))]
fn integer_words(words: &[u8]) -> Option<(u32, &str, i32)>
    ensures { GivesSome (λ x. integer_of x.0 x.1.now x.2) result
        (integer_line (words_of words.now)) }
{
    let (instance, name, default) = three_words(words)?;
    match (u32_in(instance), text_in(name), i32_in(default)) {
        (Some(instance), Some(name), Some(default)) => Some((instance, name, default)),
        _ => None,
    }
}

/// The line of an Integer Value.
fn integer_line<'r>(alloc: Global, words: &[u8]) -> Result<Option<Line<'r>>, AllocError>
    ensures { IfOk result (λ line. integer_line (words_of words.now) ≡ option_map line_of line) }
{
    let Some((instance, name, default)) = integer_words(words) else {
        return Ok(None);
    };
    let name = Name::of(String::from_str(alloc, name)?);
    Ok(Some(Line::Object(ObjectLine::Integer {
        instance,
        name,
        default,
    })))
}

/// The number of the object type that a word says (clause 21, BACnetObjectType).
pub(crate) fn kind_in(word: &[u8]) -> Option<u16>
    ensures value { result ≡ kind_in word.now }
    ensures bound { IfSome result (λ kind. kind < 1024) }
{
    if word == b"device".as_slice() {
        return Some(8);
    }
    if word == b"binary".as_slice() {
        return Some(5);
    }
    if word == b"multistate".as_slice() {
        return Some(19);
    }
    if word == b"integer".as_slice() {
        return Some(45);
    }
    if word == b"log".as_slice() {
        return Some(20);
    }
    None
}

/// The object whose type and instance two words say.
#[tactic(auto, unfolding(crate::specs::Script::Line::source_in))]
fn source_in(kind: &[u8], instance: &[u8]) -> Option<ObjectId>
    ensures { result ≡ source_in kind.now instance.now }
{
    let kind = kind_in(kind)?;
    let instance = u32_in(instance)?;
    ObjectId::new(kind, instance)
}

/// What the words of a log line say; its name still lies in the script.
#[tactic(auto, using(crate::proofs::OtherWords::log_other), unfolding(crate::proofs::Opened::log))]
fn log_words(words: &[u8]) -> Option<(u32, &str, ObjectId, u32, u32, u32)>
    ensures { GivesSome (λ x. log_of x.0 x.1.now x.2 x.3 x.4 x.5) result
        (log_line (words_of words.now)) }
{
    let (instance, name, rest) = split_two(words)?;
    let (kind, source, rest) = split_two(rest)?;
    let (capacity, interval, logged) = three_words(rest)?;
    Some((
        u32_in(instance)?,
        text_in(name)?,
        source_in(kind, source)?,
        u32_in(capacity)?,
        u32_in(interval)?,
        u32_in(logged)?,
    ))
}

/// The line of a Trend Log.
fn log_line<'r>(alloc: Global, words: &[u8]) -> Result<Option<Line<'r>>, AllocError>
    ensures { IfOk result (λ line. log_line (words_of words.now) ≡ option_map line_of line) }
{
    let Some((instance, name, source, capacity, interval, logged)) = log_words(words) else {
        return Ok(None);
    };
    let name = Name::of(String::from_str(alloc, name)?);
    Ok(Some(Line::Object(ObjectLine::Log {
        instance,
        name,
        source,
        capacity,
        interval,
        logged,
    })))
}

/// The line of a datagram that is received.
#[tactic(auto, unfolding(crate::specs::Script::Line::rx_line))]
fn rx_line<'r>(words: &[u8], room: &'r mut [u8; LONGEST]) -> Option<Line<'r>>
    ensures { rx_line (words_of words.now) ≡ option_map line_of result }
{
    let hex = last_word(words)?;
    Some(Line::Happens(Event::Received(octets_in(hex, room)?)))
}

/// The line of a clock that comes to a moment.
#[tactic(auto, unfolding(crate::specs::Script::Line::clock_line))]
fn clock_line<'r>(words: &[u8]) -> Option<Line<'r>>
    ensures { clock_line (words_of words.now) ≡ option_map line_of result }
{
    let stamp = last_word(words)?;
    Some(Line::Happens(Event::Clocked(stamp_in(stamp)?)))
}

/// The line of a sample on demand.
#[tactic(auto, unfolding(crate::specs::Script::Line::sample_line))]
fn sample_line<'r>(words: &[u8]) -> Option<Line<'r>>
    ensures { sample_line (words_of words.now) ≡ option_map line_of result }
{
    let instance = last_word(words)?;
    Some(Line::Happens(Event::Sampled(u32_in(instance)?)))
}

/// The Trend Log with the instance that a word says.
#[tactic(auto, unfolding(crate::specs::Script::Line::walked_log))]
pub(crate) fn walked_log(word: &[u8]) -> Option<ObjectId>
    ensures { result ≡ walked_log word.now }
{
    let instance = u32_in(word)?;
    ObjectId::new(20, instance)
}

/// Where a walk starts: at a number, or at the oldest record.
#[tactic(auto, unfolding(crate::specs::Script::Line::start_in))]
pub(crate) fn start_in(word: &[u8]) -> Option<Option<u32>>
    ensures { result ≡ start_in word.now }
{
    if word == b"oldest".as_slice() {
        return Some(None);
    }
    Some(Some(u32_in(word)?))
}

/// The line of a walk.
#[tactic(auto, unfolding(crate::specs::Script::Line::walk_line))]
fn walk_line<'r>(words: &[u8]) -> Option<Line<'r>>
    ensures { walk_line (words_of words.now) ≡ option_map line_of result }
{
    let (log, from, steps) = three_words(words)?;
    match (walked_log(log), start_in(from), u32_in(steps)) {
        (Some(log), Some(from), Some(steps)) => Some(Line::Happens(Event::Walked(WalkWords {
            log,
            from,
            steps,
        }))),
        _ => None,
    }
}

/// Whether a text is empty or a comment.
pub(crate) fn is_silent(text: &[u8]) -> bool
    ensures { result ≡ is_silent text.now }
{
    text.is_empty() || text[0] == b'#'
}

impl<'r> Line<'r> {
    /// What a text says that is neither empty nor a comment, if it is a line of a script. The
    /// octets of a datagram are put into the room.
    pub(crate) fn read(
        alloc: Global,
        text: &[u8],
        room: &'r mut [u8; LONGEST],
    ) -> Result<Option<Line<'r>>, AllocError>
        ensures { IfOk result (λ line. line_in text.now ≡ option_map line_of line) }
    {
        let Some((word, words)) = split_word(text) else {
            return Ok(None);
        };
        let Some(kind) = line_kind(word) else {
            return Ok(None);
        };
        match kind {
            LineKind::Device => device_line(alloc, words),
            LineKind::Binary => binary_line(alloc, words),
            LineKind::Multistate => multistate_line(alloc, words),
            LineKind::Integer => integer_line(alloc, words),
            LineKind::Log => log_line(alloc, words),
            LineKind::Rx => Ok(rx_line(words, room)),
            LineKind::Clock => Ok(clock_line(words)),
            LineKind::Sample => Ok(sample_line(words)),
            LineKind::Walk => Ok(walk_line(words)),
        }
    }
}
