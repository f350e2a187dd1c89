//! What is told of an answer that didn't come.

ghost use Rattle.std.specs.Prelude.{◌≡◌, ◌++◌, codes, decimal, OnOk};
ghost use Rattle.std.specs.Int.{w16, to_be_bytes};
ghost use Rattle.hex.specs.Hex.{encode_lower};
ghost use Rattle.bac_print.specs.Addresses.{address_text};
ghost use Rattle.bac_socket_notes.specs.Silence.{answer_text, content_text, counted, counts_text};
ghost use Rattle.bac_socket_notes.specs.Silence.{full_text, is_unsent, reason_text, silence_text};
ghost use Rattle.bac_socket_notes.specs.Silence.{stray_text, strays_text, unconfirmed_text};
ghost use Rattle.bac_socket_notes.specs.Silence.{waited_text};

use crate::contents::{Content, Stray};
use crate::notes::Passed;
use bac_print::{push_address, push_hex, push_number};
use bac_wire::Address;
use std::alloc::AllocError;

/// What helps where as many datagrams came to each try as it may take.
const ADVICE: &str =
    "; an attempt ends after 16 datagrams: use --retries=10, or a port with less traffic, such as \
     --local=0.0.0.0:50000";

/// Appends a number and what is counted.
#[tactic(auto, unfolding(crate::specs::Silence::counted))]
fn push_count(text: &mut Vec<u8>, count: u32, one: &str, many: &str) -> Result<(), AllocError>
    ensures { OnOk result (text.new.items ≡ text.old.items ++ counted count one.now many.now) }
{
    push_number(text, u64::from(count))?;
    text.extend_from_slice(if count == 1 {
        one.as_bytes()
    } else {
        many.as_bytes()
    })
}

/// The reason of a router, before the network.
#[tactic(auto, unfolding(crate::specs::Silence::reason_text))]
fn reason<'a>(reason: u8) -> &'a str
    ensures { result.now ≡ reason_text reason }
{
    match reason {
        1 => "no route to network ",
        2 => "too busy for network ",
        3 => "it doesn't know such messages, for network ",
        4 => "too long for network ",
        5 => "a security error, for network ",
        6 => "no such address on network ",
        _ => "another error, for network ",
    }
}

/// Appends a text and a number.
fn push_numbered(text: &mut Vec<u8>, said: &str, number: u64) -> Result<(), AllocError>
    ensures { OnOk result (text.new.items ≡ text.old.items ++ (said.now ++ decimal number)) }
{
    text.extend_from_slice(said.as_bytes())?;
    push_number(text, number)
}

/// Appends a text and an address.
fn push_said(text: &mut Vec<u8>, said: &str, address: Address) -> Result<(), AllocError>
    ensures { OnOk result (text.new.items ≡ text.old.items ++ (said.now ++ address_text address)) }
{
    text.extend_from_slice(said.as_bytes())?;
    push_address(text, address)
}

/// Appends why a router rejected a message to a network.
pub fn push_rejected(text: &mut Vec<u8>, why: u8, network: u16) -> Result<(), AllocError>
    ensures { OnOk result (text.new.items
        ≡ text.old.items ++ (codes "router: " ++ (reason_text why ++ decimal network))) }
{
    text.extend_from_slice(b"router: ")?;
    push_numbered(text, reason(why), u64::from(network))
}

/// Appends the code of a BVLC-Result.
fn push_result(text: &mut Vec<u8>, code: u16) -> Result<(), AllocError>
    ensures { OnOk result (text.new.items
        ≡ text.old.items ++ (codes "BVLC-Result " ++ encode_lower (to_be_bytes w16 code))) }
{
    text.extend_from_slice(b"BVLC-Result ")?;
    push_hex(text, &code.to_be_bytes())
}

/// Appends which request that wants no answer it is.
#[tactic(auto, unfolding(crate::specs::Silence::unconfirmed_text))]
fn push_unconfirmed(text: &mut Vec<u8>, service: u8) -> Result<(), AllocError>
    ensures { OnOk result (text.new.items ≡ text.old.items ++ unconfirmed_text service) }
{
    if service == 0 {
        text.extend_from_slice(b"an I-Am")
    } else {
        push_numbered(text, "an unconfirmed request, service ", u64::from(service))
    }
}

/// Appends that it is an answer that isn't the one.
#[tactic(auto, unfolding(crate::specs::Silence::answer_text))]
fn push_answer(text: &mut Vec<u8>, address: Address, own: bool) -> Result<(), AllocError>
    ensures { OnOk result (text.new.items ≡ text.old.items ++ answer_text address own) }
{
    if own {
        text.extend_from_slice(b"a reply, but not to this request")
    } else {
        push_said(text, "a reply, but not from ", address)
    }
}

/// Appends what a datagram is.
#[tactic(auto, unfolding(crate::specs::Silence::content_text))]
fn push_content(
    text: &mut Vec<u8>,
    address: Address,
    own: bool,
    content: Content,
) -> Result<(), AllocError>
    ensures { OnOk result (text.new.items ≡ text.old.items ++ content_text address own content) }
{
    match content {
        Content::Rejected { reason, network } => push_rejected(text, reason, network),
        Content::Message(message) => push_numbered(
            text,
            "a message of the network layer, type ",
            u64::from(message),
        ),
        Content::Bvlc(code) => push_result(text, code),
        Content::Confirmed => text.extend_from_slice(b"a request"),
        Content::Unconfirmed(service) => push_unconfirmed(text, service),
        Content::Answer => push_answer(text, address, own),
        Content::TooLong => text.extend_from_slice(b"over 1501 octets"),
        Content::Unread => text.extend_from_slice(b"it can't be read"),
    }
}

/// Appends who sent a datagram, and what it is.
#[tactic(auto, unfolding(crate::specs::Silence::stray_text))]
fn push_stray(text: &mut Vec<u8>, address: Address, stray: Stray) -> Result<(), AllocError>
    ensures { OnOk result (text.new.items ≡ text.old.items ++ stray_text address stray) }
{
    push_address(text, stray.from)?;
    text.extend_from_slice(b": ")?;
    push_content(text, address, stray.from == address, stray.content)
}

/// Appends what helps, if each try took as many datagrams as it may.
#[tactic(auto, unfolding(crate::specs::Silence::full_text))]
fn push_full(text: &mut Vec<u8>, passed: Passed) -> Result<(), AllocError>
    ensures { OnOk result (text.new.items ≡ text.old.items ++ full_text passed) }
{
    if passed.full == passed.tries {
        text.extend_from_slice(ADVICE.as_bytes())
    } else {
        Ok(())
    }
}

/// Appends how many tries there were, and how many datagrams came.
#[tactic(auto, unfolding(crate::specs::Silence::counts_text))]
fn push_counts(text: &mut Vec<u8>, passed: Passed) -> Result<(), AllocError>
    ensures { OnOk result (text.new.items ≡ text.old.items ++ counts_text passed) }
{
    text.extend_from_slice(b"no reply after ")?;
    push_count(text, passed.tries, " attempt; ", " attempts; ")?;
    push_count(
        text,
        passed.came,
        " unrelated datagram arrived",
        " unrelated datagrams arrived",
    )
}

/// Appends the same, and who sent the last of them and what it is.
#[tactic(auto, unfolding(crate::specs::Silence::strays_text))]
fn push_strays(
    text: &mut Vec<u8>,
    address: Address,
    passed: Passed,
    stray: Stray,
) -> Result<(), AllocError>
    ensures { OnOk result (text.new.items ≡ text.old.items ++ strays_text address passed stray) }
{
    push_counts(text, passed)?;
    text.extend_from_slice(b", the last from ")?;
    push_stray(text, address, stray)?;
    push_full(text, passed)
}

/// Whether a question could never be sent.
fn is_unsent(passed: Passed) -> bool
    ensures { result ≡ is_unsent passed }
{
    passed.tries == 0 && passed.unsent != 0
}

/// Appends that no reply came from an address, and what passed since the question was first sent.
#[tactic(auto, unfolding(crate::specs::Silence::silence_text, crate::specs::Silence::waited_text))]
pub fn push_silence(text: &mut Vec<u8>, address: Address, passed: Passed) -> Result<(), AllocError>
    ensures { OnOk result (text.new.items ≡ text.old.items ++ silence_text address passed) }
{
    if is_unsent(passed) {
        return push_said(text, "nothing could be sent to ", address);
    }
    match passed.last {
        Some(stray) => push_strays(text, address, passed, stray),
        None => push_said(text, "no reply from ", address),
    }
}
