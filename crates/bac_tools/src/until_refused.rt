//! A writer that takes nothing more once it refused.

ghost use Rattle.std.specs.Prelude.{◌≡◌, true, false, IsErr};
ghost use Rattle.std.specs.Io.{WritesAtMost};
ghost use Rattle.std.specs.Io.KnownBytes.{Keeps, WriteAppends};

use std::io::{Error, ErrorKind, Result, Write};

/// Hands writes on until one is refused, and from then on refuses them itself. So what a buffer in
/// front of it still holds isn't written when the buffer is dropped: the output ends where a write
/// failed.
#[derive(Drop)]
pub struct UntilRefused<W> {
    writer: W,
    refused: bool,
}

impl<W: Write> UntilRefused<W> {
    /// The writer, which refused nothing so far.
    pub fn new(writer: W) -> UntilRefused<W>
        ensures { result ≡ record { writer = writer; refused = false } }
    {
        UntilRefused {
            writer,
            refused: false,
        }
    }
}

/// A write that a signal interrupted isn't refused: it is made again.
fn is_refusal(written: &Result<usize>) -> bool {
    match written {
        Ok(n) => *n == 0,
        Err(error) => error.kind() != ErrorKind::Interrupted,
    }
}

impl<W: Write> Write for UntilRefused<W> {
    ghost contents = { λ until. W.contents until.writer };

    fn write(&mut self, octets: &[u8]) -> Result<usize>
        ensures bound { WritesAtMost result octets.now }
        ensures bytes { WriteAppends (W.contents self.old.writer) (W.contents self.new.writer)
            result octets.now }
        // After a refused write none reaches the writer.
        ensures over { self.old.refused ≡ true → IsErr result × (self.new ≡ self.old) }
    {
        if self.refused {
            return Err(Error::from(ErrorKind::Other));
        }
        let written = self.writer.write(octets);
        self.refused = !octets.is_empty() && is_refusal(&written);
        written
    }

    fn flush(&mut self) -> Result<()>
        ensures bytes { Keeps (W.contents self.old.writer) (W.contents self.new.writer) }
        ensures over { self.old.refused ≡ true → IsErr result × (self.new ≡ self.old) }
    {
        if self.refused {
            return Err(Error::from(ErrorKind::Other));
        }
        self.writer.flush()
    }
}
