//! What is told on standard error.

ghost use Rattle.std.specs.Prelude.{◌≡◌, ◌++◌, ◌∷◌, codes, OnOk, IfOk};
ghost use Rattle.bac_print.specs.Output.{AppendsPart};
ghost use Rattle.bac_query.specs.Ends.{cause_text, refusal_text};
ghost use Rattle.bac_tools.specs.Run.{IsTold, IsToldAfter};
ghost use Rattle.bac_tools.specs.Texts.{bad_reply, build_text, clock_text, exchange_text};
ghost use Rattle.bac_tools.specs.Texts.{fault_text};
ghost use Rattle.bac_tools.specs.Texts.{long_text, lost_text, of_address, open_text, range_text};
ghost use Rattle.bac_tools.specs.Texts.{refusal_lines, script_text, serving_line, told_after};
ghost use Rattle.bac_tools.specs.Texts.{unbuilt_text, word_text, wrong_text};

use crate::fault::Fault;
use crate::flaw::push_reply_flaw;
use crate::reason::{push_list, push_second_line, push_unanswered};
use bac_command_line::Word;
use bac_device::BuildFault;
use bac_link::{ExchangeFault, Refusal};
use bac_ports::OpenFault;
use bac_print::{push_address, push_number, write_text};
use bac_query::{push_cause, push_refusal};
use bac_script::{Refused, ReplayFault};
use bac_socket_notes::{Passed, push_silence};
use bac_wire::Address;
use std::alloc::{AllocError, Global};
use std::io::Write;

/// The values that a word or an option can have.
fn range_of<'a>(word: Word) -> &'a str
    ensures { result.now ≡ range_text word }
{
    match word {
        Word::Tool => "replay, wi, rp, wp, log, logs, keep, kept, check or serve",
        Word::File => "the name of a file",
        Word::Csv | Word::Numbers | Word::Quiet | Word::Trace => "an option without a value",
        Word::Json => "without --csv",
        Word::Wait => "a number from 0 to 3600",
        Word::Stop => "an option without a value, beside one ADDRESS",
        Word::Last => "an option without a value, beside neither --since nor --until",
        Word::Address =>
            "A.B.C.D or A.B.C.D:PORT, each of A to D from 0 to 255, PORT from 1 to 65535; for bac \
             wi also with /20 to /32 behind it",
        Word::Local =>
            "A.B.C.D or A.B.C.D:PORT, each of A to D from 0 to 255, PORT from 1 to 65535",
        Word::Since | Word::Until =>
            "the front of a stamp YYYY-MM-DDTHH:MM:SS.HH, the year at least",
        Word::ObjectType => "a number from 0 to 1023",
        Word::Instance | Word::Min => "a number from 0 to 4194303",
        Word::Max => "a number from 0 to 4194303, beside --min",
        Word::Property | Word::Index | Word::Steps | Word::Count => "a number from 0 to 4294967295",
        Word::Priority => "a number from 0 to 16",
        Word::Tag => "0, 1, 2, 3, 4, 7 or 9",
        Word::From => "a number from 1 to 4294967295, or oldest",
        Word::Value => "a value of the tag: none for 0, else one; bac wp --help has the tags",
        Word::Timeout => "a number from 1 to 60000",
        Word::Records => "a number from 1 to 100",
        Word::Part => "a number from 1 to 4096",
        Word::AtOnce => "a number from 1 to 1024",
        Word::Retries => "a number from 0 to 10",
        Word::Dnet => "a number from 1 to 65534, beside --dadr; for bac wi from 1 to 65535",
        Word::Dadr => "2 to 30 hexadecimal digits, an even number, beside --dnet",
    }
}

/// Appends a word as it is written: TYPE, or `--timeout`.
#[tactic(auto, unfolding(crate::specs::Texts::word_text))]
fn push_written(text: &mut Vec<u8>, word: Word) -> Result<(), AllocError>
    ensures { OnOk result (text.new.items ≡ text.old.items ++ word_text word) }
{
    if word.is_option() {
        text.extend_from_slice(b"--")?;
    }
    text.extend_from_slice(word.name().as_bytes())
}

/// Appends which word is wrong, and what it can be.
#[tactic(auto, unfolding(crate::specs::Texts::wrong_text))]
fn push_wrong(text: &mut Vec<u8>, word: Word) -> Result<(), AllocError>
    ensures { OnOk result (text.new.items ≡ text.old.items ++ wrong_text word) }
{
    text.extend_from_slice(b"bad value\n")?;
    push_written(text, word)?;
    text.extend_from_slice(b": ")?;
    text.extend_from_slice(range_of(word).as_bytes())
}

/// The same of a number that has too many digits.
fn push_long(text: &mut Vec<u8>, word: Word) -> Result<(), AllocError>
    ensures { OnOk result (text.new.items ≡ text.old.items ++ long_text word) }
{
    push_wrong(text, word)?;
    text.extend_from_slice(b", of at most 10 digits")
}

/// Why a device can't be built.
fn built_badly<'a>(fault: BuildFault) -> &'a str
    ensures { result.now ≡ build_text fault }
{
    match fault {
        BuildFault::BadInstance => "bad instance",
        BuildFault::DuplicateId => "duplicate object",
        BuildFault::BadName => "bad name",
        BuildFault::DuplicateName => "duplicate name",
        BuildFault::BadStates => "bad states",
        BuildFault::BadDefault => "bad default",
        BuildFault::BadCapacity => "bad capacity",
        BuildFault::BadInterval => "bad interval",
        BuildFault::BadReplySize => "bad reply size",
        BuildFault::Memory => "out of memory",
    }
}

/// Appends that a device can't be built, and why.
#[tactic(auto, unfolding(crate::specs::Texts::unbuilt_text))]
fn push_unbuilt(text: &mut Vec<u8>, fault: BuildFault) -> Result<(), AllocError>
    ensures { OnOk result (text.new.items ≡ text.old.items ++ unbuilt_text fault) }
{
    text.extend_from_slice(b"cannot build: ")?;
    text.extend_from_slice(built_badly(fault).as_bytes())
}

/// Appends why a script isn't played.
#[tactic(auto, unfolding(crate::specs::Texts::script_text))]
fn push_script(text: &mut Vec<u8>, fault: ReplayFault) -> Result<(), AllocError>
    ensures { OnOk result (text.new.items ≡ text.old.items ++ script_text fault) }
{
    match fault {
        ReplayFault::BadLine(number) => {
            text.extend_from_slice(b"line ")?;
            push_number(text, number as u64)?;
            text.extend_from_slice(b": bad line")
        }
        ReplayFault::Build(fault) => push_unbuilt(text, fault),
        ReplayFault::Read => text.extend_from_slice(b"read fault"),
        ReplayFault::TooLong => text.extend_from_slice(b"script too long"),
        ReplayFault::Write => text.extend_from_slice(b"write fault"),
        ReplayFault::Memory => text.extend_from_slice(b"out of memory"),
    }
}

/// Appends a line, and on a second one what is said of an address.
fn push_of_address(
    text: &mut Vec<u8>,
    line: &str,
    said: &str,
    address: Address,
) -> Result<(), AllocError>
    ensures { OnOk result
        (text.new.items ≡ text.old.items ++ of_address line.now said.now address) }
{
    text.extend_from_slice(line.as_bytes())?;
    text.push(b'\n')?;
    text.extend_from_slice(said.as_bytes())?;
    push_address(text, address)
}

/// Appends why a script or a configuration is refused, and what is to mend.
fn push_refused(text: &mut Vec<u8>, refused: Refused) -> Result<(), AllocError>
    ensures { OnOk result (text.new.items ≡ text.old.items ++ refusal_lines refused) }
{
    push_script(text, refused.fault)?;
    push_second_line(text, refused.reason)
}

/// Appends how a device refused, and on a second line what that means.
fn push_refused_by(text: &mut Vec<u8>, refusal: Refusal) -> Result<(), AllocError>
    ensures { OnOk result
        (text.new.items ≡ text.old.items ++ (refusal_text refusal ++ (10 ∷ cause_text refusal))) }
{
    push_refusal(text, refusal)?;
    text.push(b'\n')?;
    push_cause(text, refusal)
}

/// Appends that the reply to one question doesn't serve.
fn push_bad_reply(text: &mut Vec<u8>) -> Result<(), AllocError>
    ensures { OnOk result (text.new.items ≡ text.old.items ++ bad_reply) }
{
    text.extend_from_slice(b"bad reply\n")?;
    text.extend_from_slice(
        b"the reply doesn't acknowledge this request, is segmented, or can't be read",
    )
}

/// Appends that the machine's clock tells no time.
fn push_clock(text: &mut Vec<u8>) -> Result<(), AllocError>
    ensures { OnOk result (text.new.items ≡ text.old.items ++ clock_text) }
{
    text.extend_from_slice(b"clock fault\n")?;
    text.extend_from_slice(b"the machine's clock can't be read, or its year isn't 1990 to 2154")
}

/// Appends that the answer of an address didn't come, and what passed in its place.
fn push_lost(text: &mut Vec<u8>, passed: Passed, address: Address) -> Result<(), AllocError>
    ensures { OnOk result (text.new.items ≡ text.old.items ++ lost_text passed address) }
{
    text.extend_from_slice(b"lost\n")?;
    push_silence(text, address, passed)
}

/// Appends why an exchange with an address brought no ACK.
#[tactic(auto, unfolding(crate::specs::Texts::exchange_text))]
fn push_exchange(
    text: &mut Vec<u8>,
    passed: Passed,
    address: Address,
    fault: ExchangeFault,
) -> Result<(), AllocError>
    ensures { OnOk result (text.new.items ≡ text.old.items ++ exchange_text passed address fault) }
{
    match fault {
        ExchangeFault::Lost => push_lost(text, passed, address),
        ExchangeFault::Refused(refusal) => push_refused_by(text, refusal),
        ExchangeFault::BadReply => push_bad_reply(text),
        ExchangeFault::TooLong => text.extend_from_slice(b"bad value\nthe request is too long"),
    }
}

/// Appends a text on a line of its own.
fn push_line(text: &mut Vec<u8>, said: &str) -> Result<(), AllocError>
    ensures { OnOk result (text.new.items ≡ text.old.items ++ (10 ∷ said.now)) }
{
    text.push(b'\n')?;
    text.extend_from_slice(said.as_bytes())
}

/// Appends that a socket couldn't be opened, and why if the system says it.
fn push_unopened(text: &mut Vec<u8>, why: OpenFault) -> Result<(), AllocError>
    ensures { OnOk result
        (text.new.items ≡ text.old.items ++ (codes "socket fault" ++ open_text why)) }
{
    text.extend_from_slice(b"socket fault")?;
    match why {
        OpenFault::InUse => push_line(text, "another socket has the address"),
        OpenFault::NotOurs => push_line(text, "the address isn't one of this machine"),
        OpenFault::NotPermitted => push_line(text, "the system doesn't permit it"),
        OpenFault::Failed => Ok(()),
    }
}

/// Appends what is told of a fault after its last question.
#[tactic(auto, unfolding(crate::specs::Texts::fault_text))]
fn push_fault(text: &mut Vec<u8>, passed: Passed, fault: Fault) -> Result<(), AllocError>
    ensures { OnOk result (text.new.items ≡ text.old.items ++ fault_text passed fault) }
{
    match fault {
        Fault::NotText => text.extend_from_slice(b"bad value\na word isn't UTF-8"),
        Fault::BadValue(word) => push_wrong(text, word),
        Fault::LongNumber(word) => push_long(text, word),
        Fault::OtherTool => text.extend_from_slice(
            b"bad value\nthis program has no keep, kept or check",
        ),
        Fault::NoDevice => text.extend_from_slice(b"bad value\nno device line"),
        Fault::Script(refused) => push_refused(text, refused),
        Fault::Unopened(why) => push_unopened(text, why),
        Fault::Socket => text.extend_from_slice(b"socket fault"),
        Fault::Refused(address) => push_of_address(
            text,
            "socket fault",
            "nothing was sent to ",
            address,
        ),
        Fault::NoAnswer(asked) => push_unanswered(text, asked),
        Fault::List(fault) => push_list(text, fault),
        Fault::Exchange { address, fault } => push_exchange(text, passed, address, fault),
        Fault::Flawed(flaw) => push_reply_flaw(text, flaw),
        Fault::Silent(address) => push_silence(text, address, passed),
        Fault::Declined(refusal) => push_cause(text, refusal),
        Fault::Clock => push_clock(text),
        Fault::Write => text.extend_from_slice(b"write fault"),
        Fault::Memory => text.extend_from_slice(b"out of memory"),
    }
}

/// The lines that tell a fault.
fn text_of(alloc: Global, passed: Passed, fault: Fault) -> Result<Vec<u8>, AllocError>
    ensures { IfOk result (λ text. text.items ≡ told_after passed fault) }
{
    let mut text = Vec::new(alloc);
    push_fault(&mut text, passed, fault)?;
    text.extend_from_slice(b"\n")?;
    Ok(text)
}

/// The line that tells that a device is up at an address.
#[tactic(auto, unfolding(crate::specs::Texts::serving_line))]
pub(crate) fn announcement(alloc: Global, address: Address) -> Result<Vec<u8>, AllocError>
    ensures { IfOk result (λ line. line.items ≡ serving_line address) }
{
    let mut line = Vec::new(alloc);
    line.extend_from_slice(b"serving ")?;
    push_address(&mut line, address)?;
    line.push(b'\n')?;
    Ok(line)
}

/// Writes a text with one write; if that is refused there is nowhere to tell it.
pub(crate) fn say<E: Write>(text: &[u8], errors: &mut E)
    ensures { AppendsPart (E.contents errors.old) (E.contents errors.new) text.now }
{
    let _ = write_text(errors, text);
}

/// Tells a fault with one write, and answers its exit status; a refused write changes nothing. What
/// passed since the last question is told where its answer didn't come. Without memory for its
/// text, it is out of memory in its place.
pub fn tell_after<E: Write>(alloc: Global, passed: Passed, fault: Fault, errors: &mut E) -> u8
    ensures { IsToldAfter passed fault (E.contents errors.old) (E.contents errors.new) result }
{
    let status = fault.status();
    match text_of(alloc, passed, fault) {
        Ok(text) => {
            say(&text, errors);
            status
        }
        Err(_) => {
            say(b"out of memory\n", errors);
            Fault::Memory.status()
        }
    }
}

/// The same where nothing was asked.
pub fn tell<E: Write>(alloc: Global, fault: Fault, errors: &mut E) -> u8
    ensures { IsTold fault (E.contents errors.old) (E.contents errors.new) result }
{
    tell_after(alloc, Passed::nothing(), fault, errors)
}
