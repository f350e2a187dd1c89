//! A script read from a reader, its text written to a writer.
ghost use Rattle.std.specs.Prelude.{◌≡◌, ◌≢◌, ◌+◌, ◌<◌, ◌≤◌, ℕ, List, [], ◌∷◌, length, None, Some};
ghost use Rattle.std.specs.Prelude.{Ok, Err, IfOk, IfErr, OnOk, Option, take};
ghost use Rattle.std.specs.Io.KnownBytes.{Appends, Consumes, IsAtEnd};
ghost use Rattle.bac_script.specs.Reason.{IsExplained, IsReason, IsUnbuilt, described};
ghost use Rattle.bac_script.specs.Reason.{without_reason};
ghost use Rattle.bac_script.specs.Input.{ConsumesUpTo};
ghost use Rattle.std.specs.Str.Lines.{lines};
ghost use Rattle.bac_script.specs.Script.Lines.{ended_lines, open_line, last_if_any};
ghost use Rattle.bac_objects.specs.declared.build.BuildFault.{BuildFault};
ghost use Rattle.bac_script.specs.Outcomes.{IsCutShort, IsPlayed, IsTooLong, IsUnread, IsUnwritten};
ghost use Rattle.bac_script.specs.Outcomes.{OfScript};
ghost use Rattle.bac_script.specs.Replay.{PlaysAll, Replays};
ghost use Rattle.bac_script.specs.Session.{SessionState, Empty, step, end_fault};
ghost use Rattle.bac_script.specs.Views.{state_of};
ghost use Rattle.bac_script.specs.Stops.{LineStops, ScriptStops, Stops, StopsFrom};

pub(crate) mod fault;
pub(crate) mod input;
pub(crate) mod mending;
mod session;
mod walk;

use crate::replay::fault::{Refused, ReplayFault};
use crate::replay::input::{Ending, fill};
use crate::replay::session::{Scratch, Session};
use crate::script::lines::{split_line, without_return};
use bac_print::write_text;
use std::alloc::Global;
use std::io::{Read, Write};

/// The greatest number of octets of a script.
pub const LIMIT: usize = 1_048_576;

/// Plays one line and writes its text.
fn play_line<W: Write>(
    alloc: Global,
    session: &mut Session,
    scratch: &mut Scratch,
    number: usize,
    line: &[u8],
    writer: &mut W,
) -> Result<(), ReplayFault>
    ensures ok { OnOk result ((text : List ℕ)
        × (step (state_of session.old) line.now ≡ Ok (text, state_of session.new))
        × Appends (W.contents writer.old) (W.contents writer.new) text) }
    ensures err { IfErr result (LineStops (W.contents writer.old) (W.contents writer.new) number
        (state_of session.old) line.now) }
{
    if let Err(fault) = session.play_text(alloc, line, scratch) {
        return Err(fault.at_line(number));
    }
    match write_text(writer, scratch.text()) {
        Ok(()) => Ok(()),
        Err(_) => Err(ReplayFault::Write),
    }
}

/// Plays the lines that a line feed ends. It answers the number of the line that follows, and what
/// stands behind the last line feed.
fn play_ended<'a, W: Write>(
    alloc: Global,
    session: &mut Session,
    scratch: &mut Scratch,
    script: &'a [u8],
    writer: &mut W,
) -> Result<(usize, &'a [u8]), ReplayFault>
    requires { length script.now ≤ LIMIT }
    ensures number { IfOk result (λ x. x.0 ≡ 1 + length (ended_lines script.now)) }
    ensures all { IfOk result (λ x. PlaysAll (W.contents writer.old) (W.contents writer.new)
        (state_of session.old) (ended_lines script.now) (state_of session.new)) }
    ensures rest { IfOk result (λ x. open_line script.now ≡ last_if_any (x.1.now ∷ [])) }
    ensures err { IfErr result (Stops (W.contents writer.old) (W.contents writer.new)
        (state_of session.old) (ended_lines script.now)) }
{
    let mut rest = script;
    let mut number = 1;
    while let Some((line, more)) = split_line(rest) {
        play_line(
            alloc,
            session,
            scratch,
            number,
            without_return(line),
            writer,
        )?;
        rest = more;
        number += 1;
    }
    Ok((number, rest))
}

/// The same, and nothing else is answered.
fn play_front<W: Write>(
    alloc: Global,
    session: &mut Session,
    scratch: &mut Scratch,
    script: &[u8],
    writer: &mut W,
) -> Result<(), ReplayFault>
    requires { length script.now ≤ LIMIT }
    ensures ok { OnOk result (PlaysAll (W.contents writer.old) (W.contents writer.new)
        (state_of session.old) (ended_lines script.now) (state_of session.new)) }
    ensures err { IfErr result (Stops (W.contents writer.old) (W.contents writer.new)
        (state_of session.old) (ended_lines script.now)) }
{
    play_ended(alloc, session, scratch, script, writer)?;
    Ok(())
}

/// Plays the lines that a line feed ends, from the start.
fn play_cut<W: Write>(alloc: Global, script: &[u8], writer: &mut W) -> Result<(), ReplayFault>
    requires { length script.now ≤ LIMIT }
    ensures ok { OnOk result ((t : SessionState)
        × PlaysAll (W.contents writer.old) (W.contents writer.new) Empty
        (ended_lines script.now) t) }
    ensures err { IfErr result
        (Stops (W.contents writer.old) (W.contents writer.new) Empty (ended_lines script.now)) }
{
    let mut session = Session::Empty;
    let mut scratch = Scratch::new(alloc);
    play_front(alloc, &mut session, &mut scratch, script, writer)
}

/// Plays all the lines.
fn play_all<W: Write>(
    alloc: Global,
    session: &mut Session,
    scratch: &mut Scratch,
    script: &[u8],
    writer: &mut W,
) -> Result<(), ReplayFault>
    requires { length script.now ≤ LIMIT }
    ensures ok { OnOk result (PlaysAll (W.contents writer.old) (W.contents writer.new)
        (state_of session.old) (lines script.now) (state_of session.new)) }
    ensures err { IfErr result (Stops (W.contents writer.old) (W.contents writer.new)
        (state_of session.old) (lines script.now)) }
{
    let (number, rest) = play_ended(alloc, session, scratch, script, writer)?;
    if rest.is_empty() {
        return Ok(());
    }
    play_line(alloc, session, scratch, number, rest, writer)
}

/// Plays all the lines from what was made before, and builds the device at the end where no line
/// did.
fn play_to_end<W: Write>(
    alloc: Global,
    session: &mut Session,
    scratch: &mut Scratch,
    script: &[u8],
    writer: &mut W,
) -> Result<(), ReplayFault>
    requires { length script.now ≤ LIMIT }
    ensures ok { OnOk result (PlaysAll (W.contents writer.old) (W.contents writer.new)
        (state_of session.old) (lines script.now) (state_of session.new)
        × (end_fault (state_of session.new) ≡ None)) }
    ensures err { IfErr result (StopsFrom (W.contents writer.old) (W.contents writer.new)
        (state_of session.old) script.now) }
{
    play_all(alloc, session, scratch, script, writer)?;
    match session.finish(alloc) {
        Ok(()) => Ok(()),
        Err(fault) => Err(ReplayFault::of_build(fault)),
    }
}

/// Plays all the lines, and builds the device at the end where no line did.
fn play_whole<W: Write>(alloc: Global, script: &[u8], writer: &mut W) -> Result<(), ReplayFault>
    requires { length script.now ≤ LIMIT }
    ensures ok { OnOk result ((t : SessionState)
        × PlaysAll (W.contents writer.old) (W.contents writer.new) Empty (lines script.now) t
        × (end_fault t ≡ None)) }
    ensures err { IfErr result
        (ScriptStops (W.contents writer.old) (W.contents writer.new) script.now) }
{
    let mut session = Session::Empty;
    let mut scratch = Scratch::new(alloc);
    play_to_end(alloc, &mut session, &mut scratch, script, writer)
}

/// Plays what was read, by how the reading ended. A script of more than `limit` octets is too long.
fn play_read<W: Write>(
    alloc: Global,
    limit: usize,
    text: &[u8],
    ending: Ending,
    writer: &mut W,
) -> Result<(), ReplayFault>
    requires limit { limit ≤ LIMIT }
    requires end { ending ≡ Ending.End → length text.now ≤ limit }
    requires full { ending ≡ Ending.Full → length text.now ≡ limit + 1 }
    requires refused { ending ≡ Ending.Refused → length text.now ≤ limit }
    ensures ends { (have left : Option (List ℕ)) → Consumes have left text.now
        → (ending ≡ Ending.End → IsAtEnd left)
        → Replays limit have left (W.contents writer.old) (W.contents writer.new) result }
    ensures unbuilt { (f : BuildFault) → result ≡ Err (ReplayFault.Build f)
        → IsUnbuilt (described None (lines text.now)) f }
    ensures whole { OnOk result (ending ≡ Ending.End) }
    ensures build_memory { result ≢ Err (ReplayFault.Build BuildFault.Memory) }
{
    match ending {
        Ending::End => play_whole(alloc, text, writer),
        Ending::Full => {
            play_cut(alloc, &text[..limit], writer)?;
            Err(ReplayFault::TooLong)
        }
        Ending::Refused => {
            play_cut(alloc, text, writer)?;
            Err(ReplayFault::Read)
        }
    }
}

/// Plays the script that the reader has, which is read into the buffer, and writes its text. The
/// first part of the answer says how many octets came.
fn replay_in<R: Read, W: Write>(
    alloc: Global,
    limit: usize,
    buffer: &mut [u8],
    reader: &mut R,
    writer: &mut W,
) -> (usize, Result<(), ReplayFault>)
    requires limit { limit ≤ LIMIT }
    requires room { length buffer.old ≡ limit + 1 }
    ensures within { result.0 ≤ length buffer.new }
    ensures kept { Consumes (R.remaining reader.old) (R.remaining reader.new)
        (take result.0 buffer.new) }
    ensures ends { Replays limit (R.remaining reader.old) (R.remaining reader.new)
        (W.contents writer.old) (W.contents writer.new) result.1 }
    ensures unbuilt { (f : BuildFault) → result.1 ≡ Err (ReplayFault.Build f)
        → IsUnbuilt (described None (lines (take result.0 buffer.new))) f }
    ensures read { ConsumesUpTo (limit + 1) (R.remaining reader.old) (R.remaining reader.new) }
    ensures whole { OnOk result.1 (IsAtEnd (R.remaining reader.new)) }
    ensures build_memory { result.1 ≢ Err (ReplayFault.Build BuildFault.Memory) }
{
    let (filled, ending) = fill(reader, buffer);
    let played = play_read(alloc, limit, &buffer[..filled], ending, writer);
    (filled, played)
}

/// The same, with a buffer of its own.
fn replay_within<R: Read, W: Write>(
    alloc: Global,
    limit: usize,
    reader: &mut R,
    writer: &mut W,
) -> Result<(), ReplayFault>
    requires { limit ≤ LIMIT }
    ensures ends { Replays limit (R.remaining reader.old) (R.remaining reader.new)
        (W.contents writer.old) (W.contents writer.new) result }
    ensures read { ConsumesUpTo (limit + 1) (R.remaining reader.old) (R.remaining reader.new) }
    ensures whole { OnOk result (IsAtEnd (R.remaining reader.new)) }
    ensures build_memory { result ≢ Err (ReplayFault.Build BuildFault.Memory) }
{
    match vec![in alloc; 0u8; limit + 1] {
        Ok(mut buffer) => {
            let (_, played) = replay_in(alloc, limit, &mut buffer, reader, writer);
            played
        }
        Err(_) => Err(ReplayFault::Memory),
    }
}

/// How the playing of a script that was read ended; a fault comes with what is to mend.
fn explained(alloc: Global, text: &[u8], played: Result<(), ReplayFault>) -> Result<(), Refused>
    requires { (f : BuildFault) → played ≡ Err (ReplayFault.Build f)
        → IsUnbuilt (described None (lines text.now)) f }
    ensures played { without_reason result ≡ played }
    ensures reason { IfErr result
        (λ refused. IsReason text.now refused.fault refused.reason) }
{
    match played {
        Ok(()) => Ok(()),
        Err(ReplayFault::Build(fault)) => Err(Refused::of_build(alloc, text, fault)),
        Err(fault) => Err(Refused::of(text, fault)),
    }
}

/// The same; a fault comes with what is to mend.
fn explained_within<R: Read, W: Write>(
    alloc: Global,
    limit: usize,
    reader: &mut R,
    writer: &mut W,
) -> Result<(), Refused>
    requires { limit ≤ LIMIT }
    ensures ends { Replays limit (R.remaining reader.old) (R.remaining reader.new)
        (W.contents writer.old) (W.contents writer.new) (without_reason result) }
    ensures explained { IfErr result
        (IsExplained (R.remaining reader.old) (R.remaining reader.new)) }
    ensures read { ConsumesUpTo (limit + 1) (R.remaining reader.old) (R.remaining reader.new) }
    ensures whole { OnOk result (IsAtEnd (R.remaining reader.new)) }
    ensures build_memory { without_reason result ≢ Err (ReplayFault.Build BuildFault.Memory) }
{
    let Ok(mut buffer) = vec![in alloc; 0u8; limit + 1] else {
        return Err(Refused {
            fault: ReplayFault::Memory,
            reason: None,
        });
    };
    let (filled, played) = replay_in(alloc, limit, &mut buffer, reader, writer);
    explained(alloc, &buffer[..filled], played)
}

/// Plays the script that the reader has as [`run_replay`] does; a fault comes with what is to mend,
/// if that can be told.
pub fn run_replay_explained<R: Read, W: Write>(
    alloc: Global,
    reader: &mut R,
    writer: &mut W,
) -> Result<(), Refused>
    ensures ends { Replays LIMIT (R.remaining reader.old) (R.remaining reader.new)
        (W.contents writer.old) (W.contents writer.new) (without_reason result) }
    ensures explained { IfErr result
        (IsExplained (R.remaining reader.old) (R.remaining reader.new)) }
    ensures read { ConsumesUpTo (LIMIT + 1) (R.remaining reader.old) (R.remaining reader.new) }
    ensures whole { OnOk result (IsAtEnd (R.remaining reader.new)) }
    ensures build_memory { without_reason result ≢ Err (ReplayFault.Build BuildFault.Memory) }
{
    explained_within(alloc, LIMIT, reader, writer)
}

/// Plays the script that the reader has, and writes its text. Each outcome has a clause of its
/// name; `ends` has all of them in one.
pub fn run_replay<R: Read, W: Write>(
    alloc: Global,
    reader: &mut R,
    writer: &mut W,
) -> Result<(), ReplayFault>
    ensures limit { LIMIT ≡ 1048576 }
    ensures done { OnOk result (OfScript (R.remaining reader.old)
        (IsPlayed LIMIT (W.contents writer.old) (W.contents writer.new) None)) }
    ensures bad_line { (n : ℕ) → result ≡ Err (ReplayFault.BadLine n)
        → OfScript (R.remaining reader.old)
        (IsPlayed LIMIT (W.contents writer.old) (W.contents writer.new)
        (Some (ReplayFault.BadLine n))) }
    ensures build { (f : BuildFault) → result ≡ Err (ReplayFault.Build f)
        → OfScript (R.remaining reader.old)
        (IsPlayed LIMIT (W.contents writer.old) (W.contents writer.new)
        (Some (ReplayFault.Build f))) }
    ensures too_long { result ≡ Err ReplayFault.TooLong
        → OfScript (R.remaining reader.old)
        (IsTooLong LIMIT (W.contents writer.old) (W.contents writer.new)) }
    ensures read_fault { result ≡ Err ReplayFault.Read
        → OfScript (R.remaining reader.old)
        (IsUnread LIMIT (R.remaining reader.new) (W.contents writer.old)
        (W.contents writer.new)) }
    ensures write_fault { result ≡ Err ReplayFault.Write
        → OfScript (R.remaining reader.old)
        (IsUnwritten LIMIT (W.contents writer.old) (W.contents writer.new)) }
    ensures memory { result ≡ Err ReplayFault.Memory
        → OfScript (R.remaining reader.old)
        (IsCutShort LIMIT (W.contents writer.old) (W.contents writer.new)) }
    ensures ends { Replays LIMIT (R.remaining reader.old) (R.remaining reader.new)
        (W.contents writer.old) (W.contents writer.new) result }
    ensures read { ConsumesUpTo (LIMIT + 1) (R.remaining reader.old) (R.remaining reader.new) }
    ensures whole { OnOk result (IsAtEnd (R.remaining reader.new)) }
    ensures build_memory { result ≢ Err (ReplayFault.Build BuildFault.Memory) }
{
    replay_within(alloc, LIMIT, reader, writer)
}
