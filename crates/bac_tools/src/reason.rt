//! What is told of a script or a configuration that isn't right: what to mend.

ghost use Rattle.std.specs.Prelude.{◌≡◌, ◌++◌, codes, decimal, None, OnOk};
ghost use Rattle.bac_tools.specs.Reasons.{blanks_text, default_text, first_word, fitting_text};
ghost use Rattle.bac_tools.specs.Reasons.{flaw_text, form_text, in_line, line_text, list_text};
ghost use Rattle.bac_tools.specs.Reasons.{listed_badly, misfit_text, namesake_text, number_text};
ghost use Rattle.bac_tools.specs.Reasons.{place_text, reason_text, second_line, some_line};
ghost use Rattle.bac_tools.specs.Reasons.{unanswered_text, unbuilt_line, unheard_text};
ghost use Rattle.bac_tools.specs.Reasons.{wanted_text, word_flaw};

use crate::fault::Unanswered;
use bac_command_line::ListFault;
use bac_device::{BuildFault, LineId, Misfit};
use bac_print::push_number;
use bac_script::{Flaw, LineKind, Reason, UnfitLine, Wanted};
use std::alloc::AllocError;

/// The words of a line.
fn form_of<'a>(kind: LineKind) -> &'a str
    ensures { result.now ≡ form_text kind }
{
    match kind {
        LineKind::Device => "device INSTANCE NAME VENDOR REPLY STAMP",
        LineKind::Binary => "binary INSTANCE NAME DEFAULT",
        LineKind::Multistate => "multistate INSTANCE NAME STATES DEFAULT",
        LineKind::Integer => "integer INSTANCE NAME DEFAULT",
        LineKind::Log => "log INSTANCE NAME KIND SOURCE CAPACITY INTERVAL LOGGED",
        LineKind::Rx => "rx HEX",
        LineKind::Clock => "clock STAMP",
        LineKind::Sample => "sample INSTANCE",
        LineKind::Walk => "walk LOG FROM STEPS",
    }
}

/// What a word has to be.
fn told_of<'a>(wanted: Wanted) -> &'a str
    ensures { result.now ≡ wanted_text wanted }
{
    match wanted {
        Wanted::Number => "a number from 0 to 4294967295",
        Wanted::Short => "a number from 0 to 65535",
        Wanted::Object => "a number from 0 to 4194302",
        Wanted::Reply => "a number from 50 to 1476",
        Wanted::Binary => "0 or 1",
        Wanted::States => "a number from 1 to 65535",
        Wanted::State => "a number from 1 to STATES",
        Wanted::Capacity => "a number from 1 to 65535",
        Wanted::Interval => "0, or a number from 100 to 4294967295",
        Wanted::Name => "a text in UTF-8, of one octet at least",
        Wanted::Integer => "an integer from -2147483648 to 2147483647",
        Wanted::Stamp => "a moment of the years 1990 to 2154, as YYYY-MM-DDTHH:MM:SS.hh",
        Wanted::Kind => "device, binary, multistate, integer or log",
        Wanted::Instance => "a number from 0 to 4194303",
        Wanted::Digits => "2 to 3002 hexadecimal digits, an even number",
        Wanted::Start => "a number from 0 to 4294967295, or oldest",
    }
}

/// Appends a text, and another after it.
fn push_both(text: &mut Vec<u8>, first: &str, second: &str) -> Result<(), AllocError>
    ensures { OnOk result (text.new.items ≡ text.old.items ++ (first.now ++ second.now)) }
{
    text.extend_from_slice(first.as_bytes())?;
    text.extend_from_slice(second.as_bytes())
}

/// What a line is whose place is wrong.
fn place_of<'a>(kind: LineKind) -> &'a str
    ensures { result.now ≡ place_text kind }
{
    match kind {
        LineKind::Device => "a device line stands before it",
        LineKind::Rx | LineKind::Clock | LineKind::Sample | LineKind::Walk => {
            "no device line stands before it"
        }
        LineKind::Binary | LineKind::Multistate | LineKind::Integer | LineKind::Log => {
            "it stands behind the device line, and before the first event"
        }
    }
}

/// Appends a text, and a number after it.
fn push_numbered(text: &mut Vec<u8>, said: &str, number: usize) -> Result<(), AllocError>
    ensures { OnOk result (text.new.items ≡ text.old.items ++ (said.now ++ decimal number)) }
{
    text.extend_from_slice(said.as_bytes())?;
    push_number(text, number as u64)
}

/// Appends which word is wrong, and what it has to be.
fn push_word(text: &mut Vec<u8>, number: usize, wanted: Wanted) -> Result<(), AllocError>
    ensures { OnOk result (text.new.items ≡ text.old.items ++ word_flaw number wanted) }
{
    push_numbered(text, "word ", number)?;
    push_both(text, ": ", told_of(wanted))
}

/// Appends before which word there is a blank too many.
fn push_blanks(text: &mut Vec<u8>, number: usize) -> Result<(), AllocError>
    ensures { OnOk result (text.new.items ≡ text.old.items ++ blanks_text number) }
{
    if number <= 1 {
        text.extend_from_slice(b"the line begins with a blank")
    } else {
        push_numbered(text, "two blanks before word ", number)
    }
}

/// Appends which word is a number that is too long.
fn push_long(text: &mut Vec<u8>, number: usize, wanted: Wanted) -> Result<(), AllocError>
    ensures { OnOk result (text.new.items
        ≡ text.old.items ++ (word_flaw number wanted ++ codes ", of at most 10 digits")) }
{
    push_word(text, number, wanted)?;
    text.extend_from_slice(b", of at most 10 digits")
}

/// Appends what is wrong with a bad line.
#[tactic(auto, unfolding(crate::specs::Reasons::flaw_text))]
fn push_flaw(text: &mut Vec<u8>, flaw: Flaw) -> Result<(), AllocError>
    ensures { OnOk result (text.new.items ≡ text.old.items ++ flaw_text flaw) }
{
    match flaw {
        Flaw::Kind => text.extend_from_slice(
            b"a line begins with device, binary, multistate, integer, log, rx, clock, sample or \
              walk",
        ),
        Flaw::Described => text.extend_from_slice(
            b"a line begins with device, binary, multistate, integer or log",
        ),
        Flaw::Count(kind) => push_both(text, "the line is: ", form_of(kind)),
        Flaw::Word(number, wanted) => push_word(text, number, wanted),
        Flaw::Long(number, wanted) => push_long(text, number, wanted),
        Flaw::Blank => text.extend_from_slice(b"the line ends with a blank"),
        Flaw::Blanks(number) => push_blanks(text, number),
        Flaw::Place(kind) => text.extend_from_slice(place_of(kind).as_bytes()),
        Flaw::Event => text.extend_from_slice(
            b"a configuration has no events: rx, clock, sample and walk are for bac replay",
        ),
    }
}

/// The first word of the line of an object of this type.
fn first_word<'a>(object_type: u16) -> &'a str
    ensures { result.now ≡ first_word object_type }
{
    match object_type {
        8 => "device",
        5 => "binary",
        19 => "multistate",
        45 => "integer",
        20 => "log",
        _ => "object",
    }
}

/// Appends a line by its first two words.
#[tactic(auto, unfolding(crate::specs::Reasons::line_text))]
fn push_line(text: &mut Vec<u8>, line: LineId) -> Result<(), AllocError>
    ensures { OnOk result (text.new.items ≡ text.old.items ++ line_text line) }
{
    text.extend_from_slice(first_word(line.object_type).as_bytes())?;
    text.push(b' ')?;
    push_number(text, line.instance as u64)
}

/// Appends where a line is, if that is known.
fn push_place(text: &mut Vec<u8>, number: Option<usize>) -> Result<(), AllocError>
    ensures { OnOk result (text.new.items ≡ text.old.items ++ in_line number) }
{
    match number {
        Some(number) => push_numbered(text, " in line ", number),
        None => Ok(()),
    }
}

/// Appends which line has the same name, and where.
fn push_namesake(
    text: &mut Vec<u8>,
    namesake: Option<LineId>,
    number: Option<usize>,
) -> Result<(), AllocError>
    ensures { OnOk result (text.new.items ≡ text.old.items ++ namesake_text namesake number) }
{
    match namesake {
        Some(line) => {
            push_line(text, line)?;
            push_place(text, number)
        }
        None => text.extend_from_slice(b"another line"),
    }
}

/// Appends a line by its number, if that is known.
fn push_some_line(text: &mut Vec<u8>, number: Option<usize>) -> Result<(), AllocError>
    ensures { OnOk result (text.new.items ≡ text.old.items ++ some_line number) }
{
    match number {
        Some(number) => push_numbered(text, "line ", number),
        None => text.extend_from_slice(b"another line"),
    }
}

/// What the default of an object of this type has to be.
fn default_of<'a>(object_type: u16) -> &'a str
    ensures { result.now ≡ default_text object_type }
{
    if object_type == 5 {
        "DEFAULT is 0 or 1"
    } else {
        "DEFAULT is a number from 1 to STATES"
    }
}

/// What a line with this fault has to be, where no other line is known.
fn fitting_of<'a>(fault: BuildFault, object_type: u16) -> &'a str
    ensures { result.now ≡ fitting_text fault object_type None None }
{
    match fault {
        BuildFault::DuplicateName => "its name is that of another line",
        BuildFault::BadInstance => "an instance is a number from 0 to 4194302",
        BuildFault::DuplicateId => "another line has this type and instance",
        BuildFault::BadName => "a name has 1 to 64 octets and no control character",
        BuildFault::BadStates => "STATES is a number from 1 to 65535",
        BuildFault::BadDefault => default_of(object_type),
        BuildFault::BadCapacity => "CAPACITY is a number from 1 to 65535",
        BuildFault::BadInterval => "INTERVAL is 0, or a number from 100 to 4294967295",
        BuildFault::BadReplySize => "REPLY is a number from 50 to 1476",
        BuildFault::Memory => "out of memory",
    }
}

/// Appends what a line with this fault has to be.
fn push_fitting(
    text: &mut Vec<u8>,
    fault: BuildFault,
    object_type: u16,
    namesake: Option<LineId>,
    rival: Option<usize>,
) -> Result<(), AllocError>
    ensures { OnOk result
        (text.new.items ≡ text.old.items ++ fitting_text fault object_type namesake rival) }
{
    match fault {
        BuildFault::DuplicateName => {
            text.extend_from_slice(b"its name is that of ")?;
            push_namesake(text, namesake, rival)
        }
        BuildFault::DuplicateId => {
            push_some_line(text, rival)?;
            text.extend_from_slice(b" has this type and instance")
        }
        alone => text.extend_from_slice(fitting_of(alone, object_type).as_bytes()),
    }
}

/// Appends the number of a line, if that is known.
fn push_line_number(text: &mut Vec<u8>, number: Option<usize>) -> Result<(), AllocError>
    ensures { OnOk result (text.new.items ≡ text.old.items ++ number_text number) }
{
    let Some(number) = number else {
        return Ok(());
    };
    push_numbered(text, "line ", number)?;
    text.extend_from_slice(b": ")
}

/// Appends which line a device can't be built with, and what it has to be.
#[tactic(auto, unfolding(crate::specs::Reasons::misfit_text))]
fn push_misfit(text: &mut Vec<u8>, misfit: Misfit, rival: Option<usize>) -> Result<(), AllocError>
    ensures { OnOk result (text.new.items ≡ text.old.items ++ misfit_text misfit rival) }
{
    let Misfit {
        line,
        fault,
        namesake,
    } = misfit;
    push_line(text, line)?;
    text.extend_from_slice(b": ")?;
    push_fitting(text, fault, line.object_type, namesake, rival)
}

/// Appends the same, and where it stands.
#[tactic(auto, unfolding(crate::specs::Reasons::unbuilt_line))]
fn push_unbuilt(text: &mut Vec<u8>, unbuilt: UnfitLine) -> Result<(), AllocError>
    ensures { OnOk result (text.new.items ≡ text.old.items ++ unbuilt_line unbuilt) }
{
    push_line_number(text, unbuilt.number)?;
    push_misfit(text, unbuilt.misfit, unbuilt.rival)
}

/// Appends what is to mend.
#[tactic(auto, unfolding(crate::specs::Reasons::reason_text))]
fn push_reason(text: &mut Vec<u8>, reason: Reason) -> Result<(), AllocError>
    ensures { OnOk result (text.new.items ≡ text.old.items ++ reason_text reason) }
{
    match reason {
        Reason::Line(flaw) => push_flaw(text, flaw),
        Reason::Device(unbuilt) => push_unbuilt(text, unbuilt),
    }
}

/// Appends a second line that says what is to mend, if that is known.
pub(crate) fn push_second_line(text: &mut Vec<u8>, reason: Option<Reason>) -> Result<(), AllocError>
    ensures { OnOk result (text.new.items ≡ text.old.items ++ second_line reason) }
{
    let Some(reason) = reason else {
        return Ok(());
    };
    text.push(b'\n')?;
    push_reason(text, reason)
}

/// Appends who isn't heard at another address of one's own.
fn push_unheard(text: &mut Vec<u8>, hears_broadcasts: bool) -> Result<(), AllocError>
    ensures { OnOk result (text.new.items ≡ text.old.items ++ unheard_text hears_broadcasts) }
{
    if hears_broadcasts {
        return Ok(());
    }
    text.extend_from_slice(
        b"; devices that answer by broadcast are only heard with --local=0.0.0.0:47808",
    )
}

/// Appends that nobody answered.
pub(crate) fn push_unanswered(text: &mut Vec<u8>, asked: Unanswered) -> Result<(), AllocError>
    ensures { OnOk result (text.new.items ≡ text.old.items ++ unanswered_text asked) }
{
    text.extend_from_slice(b"no answer\n")?;
    push_numbered(text, "addresses asked: ", asked.asked)?;
    push_unheard(text, asked.hears_broadcasts)
}

/// Appends that a line of a list of addresses is bad, and why.
fn push_listed_badly(text: &mut Vec<u8>, number: usize, said: &str) -> Result<(), AllocError>
    ensures { OnOk result (text.new.items ≡ text.old.items ++ listed_badly number said.now) }
{
    push_numbered(text, "line ", number)?;
    push_both(text, ": bad line\n", said)
}

/// Appends why a list of addresses isn't read.
#[tactic(auto, unfolding(crate::specs::Reasons::list_text))]
pub(crate) fn push_list(text: &mut Vec<u8>, fault: ListFault) -> Result<(), AllocError>
    ensures { OnOk result (text.new.items ≡ text.old.items ++ list_text fault) }
{
    match fault {
        ListFault::BadLine(number) => push_listed_badly(
            text,
            number,
            "a line is A.B.C.D or A.B.C.D:PORT, A to D from 0 to 255, PORT from 1 to 65535; \
             for bac wi /20 to /32 may stand behind it, for bac keep it may be one of bac wi",
        ),
        ListFault::TooMany(number) => {
            push_listed_badly(text, number, "a list has at most 4096 addresses")
        }
        ListFault::Empty => text.extend_from_slice(b"bad value\nno address"),
        ListFault::TooLong => {
            text.extend_from_slice(b"bad value\na list has at most 1048576 octets")
        }
        ListFault::Read => text.extend_from_slice(b"read fault"),
        ListFault::Memory => text.extend_from_slice(b"out of memory"),
    }
}
