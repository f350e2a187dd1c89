//! Writing, so that it is known what a refused write left.

ghost use Rattle.std.specs.Prelude.{OnOk, OnErr};
ghost use Rattle.std.specs.Io.{WritesAtMost};
ghost use Rattle.std.specs.Io.KnownBytes.{Appends, WriteAppends};
ghost use Rattle.bac_print.specs.Output.{AppendsPart};

use std::io::{ErrorKind, Result, Write};

/// A write was refused.
#[derive(Clone, Copy)]
pub struct WriteRefused;

/// One write. If a signal interrupts it, it is made again.
fn write_again<W: Write>(writer: &mut W, text: &[u8]) -> Result<usize>
    ensures bound { WritesAtMost result text.now }
    ensures bytes { WriteAppends (W.contents writer.old) (W.contents writer.new) result text.now }
{
    for _ in 0..u64::MAX {
        match writer.write(text) {
            Ok(n) => return Ok(n),
            Err(error) => {
                if error.kind() != ErrorKind::Interrupted {
                    return Err(error);
                }
            }
        }
    }
    writer.write(text)
}

/// Writes the text, or a front part of it.
pub fn write_text<W: Write>(writer: &mut W, text: &[u8]) -> std::result::Result<(), WriteRefused>
    ensures ok { OnOk result (Appends (W.contents writer.old) (W.contents writer.new) text.now) }
    ensures err { OnErr result
        (AppendsPart (W.contents writer.old) (W.contents writer.new) text.now) }
{
    let mut rest = text;
    while !rest.is_empty() {
        match write_again(writer, rest) {
            Ok(0) => return Err(WriteRefused),
            Ok(n) => rest = &rest[n..],
            Err(_) => return Err(WriteRefused),
        }
    }
    Ok(())
}
