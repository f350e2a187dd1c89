//! Reading, and how it ended.
ghost use Rattle.std.specs.Prelude.{◌≡◌, ◌<◌, ◌≤◌, length, take};
ghost use Rattle.std.specs.Io.{ReadsAtMost};
ghost use Rattle.std.specs.Io.KnownBytes.{Consumes, IsAtEnd, ReadConsumes};

use std::io::{ErrorKind, Read, Result};

/// Why `fill` stopped.
#[derive(Clone, Copy, Debug, PartialEq, Eq)]
pub enum Ending {
    /// The reader has no more octets.
    End,
    /// The buffer is full.
    Full,
    /// A read was refused.
    Refused,
}

/// One read. If a signal interrupts it, it is made again.
fn read_again<R: Read>(reader: &mut R, buffer: &mut [u8]) -> Result<usize>
    ensures bound { ReadsAtMost result buffer.new }
    ensures bytes { ReadConsumes (R.remaining reader.old) (R.remaining reader.new) result
        buffer.new }
{
    for _ in 0..u64::MAX {
        match reader.read(buffer) {
            Ok(n) => return Ok(n),
            Err(error) => {
                if error.kind() != ErrorKind::Interrupted {
                    return Err(error);
                }
            }
        }
    }
    reader.read(buffer)
}

/// Reads into the buffer from its start, until the reader's end, the buffer's end or the first
/// refused read. The first part of the answer says how many octets came.
pub fn fill<R: Read>(reader: &mut R, buffer: &mut [u8]) -> (usize, Ending)
    ensures within { result.0 ≤ length buffer.old }
    ensures consumed { Consumes (R.remaining reader.old) (R.remaining reader.new)
        (take result.0 buffer.new) }
    ensures at_end { result.1 ≡ Ending.End → IsAtEnd (R.remaining reader.new) }
    ensures end { result.1 ≡ Ending.End → result.0 < length buffer.old }
    ensures full { result.1 ≡ Ending.Full → result.0 ≡ length buffer.old }
    ensures refused { result.1 ≡ Ending.Refused → result.0 < length buffer.old }
{
    let mut filled = 0;
    while filled < buffer.len() {
        match read_again(reader, &mut buffer[filled..]) {
            Ok(0) => return (filled, Ending::End),
            Ok(n) => filled += n,
            Err(_) => return (filled, Ending::Refused),
        }
    }
    (filled, Ending::Full)
}
