//! The lines that tell datagrams.

ghost use Rattle.std.specs.Prelude.{◌≡◌, ◌++◌, IfOk, OnOk, Ok, None};
ghost use Rattle.bac_trace.specs.Lines.{came_line, datagram_line, sent_line};

use bac_ports::Heard;
use bac_print::{push_address, push_hex};
use bac_wire::Address;
use std::alloc::{AllocError, Global};

/// Appends a word, an address and octets, a line.
fn push_datagram(
    text: &mut Vec<u8>,
    word: &[u8],
    address: Address,
    octets: &[u8],
) -> Result<(), AllocError>
    ensures { OnOk result
        (text.new.items ≡ text.old.items ++ datagram_line word.now address octets.now) }
{
    text.extend_from_slice(word)?;
    push_address(text, address)?;
    text.extend_from_slice(b" ")?;
    push_hex(text, octets)?;
    text.extend_from_slice(b"\n")
}

/// The line of a datagram that was sent to an address.
pub(crate) fn sent_line(alloc: Global, octets: &[u8], to: Address) -> Result<Vec<u8>, AllocError>
    ensures { IfOk result (λ line. line.items ≡ sent_line octets.now to (Ok tt)) }
{
    let mut line = Vec::new(alloc);
    push_datagram(&mut line, b"tx ", to, octets)?;
    Ok(line)
}

/// The line of a datagram that came.
pub(crate) fn came_line(alloc: Global, heard: &Heard) -> Result<Vec<u8>, AllocError>
    ensures { IfOk result (λ line. line.items ≡ came_line heard.now.from heard.now.datagram) }
{
    let mut line = Vec::new(alloc);
    match &heard.datagram {
        Some(datagram) => push_datagram(&mut line, b"rx ", heard.from, datagram.octets())?,
        None => push_dropped(&mut line, heard.from)?,
    }
    Ok(line)
}

/// Appends the line of a datagram that came and was dropped.
fn push_dropped(text: &mut Vec<u8>, from: Address) -> Result<(), AllocError>
    ensures { OnOk result (text.new.items ≡ text.old.items ++ came_line from None) }
{
    text.extend_from_slice(b"rx ")?;
    push_address(text, from)?;
    text.extend_from_slice(b" -\n")
}
