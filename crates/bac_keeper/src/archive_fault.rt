//! What is wrong with an archive whose file is of use.

ghost use Rattle.std.specs.Prelude.{◌≡◌, ◌++◌, IfOk, OnOk, decimal};
ghost use Rattle.bac_parts.specs.Faults.{lines_of};
ghost use Rattle.bac_keeper.specs.Halts.{reason_of};

use bac_print::push_number;
use std::alloc::{AllocError, Global};

/// What is wrong with an archive whose file is of use.
#[derive(Clone, Copy)]
pub enum ArchiveFault {
    /// It has no id left for a device.
    DevicesFull,
    /// It has none left for a trend log.
    LogsFull,
    /// The row of the device with this id doesn't tell where that is asked.
    Device(u16),
    /// The row of the trend log with this id has an instance that is none of an object.
    Log(u16),
    /// A device that is to be stopped isn't in it.
    NoDevice,
    /// A trend log that is to be stopped isn't in it.
    NoLog,
    /// The poll of its devices doesn't end.
    Endless,
}

/// Appends a text with a number in it.
fn push_row(text: &mut Vec<u8>, before: &str, id: u16, behind: &str) -> Result<(), AllocError>
    ensures { OnOk result
        (text.new.items ≡ text.old.items ++ (before.now ++ (decimal id ++ behind.now))) }
{
    text.extend_from_slice(before.as_bytes())?;
    push_number(text, u64::from(id))?;
    text.extend_from_slice(behind.as_bytes())
}

impl ArchiveFault {
    /// Appends what is wrong, and what to do.
    fn push_reason(self, text: &mut Vec<u8>) -> Result<(), AllocError>
        ensures { OnOk result (text.new.items ≡ text.old.items ++ reason_of self) }
    {
        match self {
            ArchiveFault::DevicesFull => text.extend_from_slice(
                b"it has no id left for another device: keep that in another file",
            ),
            ArchiveFault::LogsFull => text.extend_from_slice(
                b"it has no id left for another trend log: keep that in another file",
            ),
            ArchiveFault::Device(id) => push_row(
                text,
                "device ",
                id,
                " in it has a wrong address, dnet, dadr or instance: correct that with sqlite3",
            ),
            ArchiveFault::Log(id) => push_row(
                text,
                "trend log ",
                id,
                " in it has a wrong instance: correct that with sqlite3",
            ),
            ArchiveFault::NoDevice => text.extend_from_slice(b"it has no such device"),
            ArchiveFault::NoLog => text.extend_from_slice(b"it has no such trend log"),
            ArchiveFault::Endless => text.extend_from_slice(b"its devices are polled without end"),
        }
    }

    /// The lines that tell it of the archive with this name.
    pub(crate) fn lines(self, alloc: Global, path: &str) -> Result<Vec<u8>, AllocError>
        ensures { IfOk result (λ text. text.items ≡ lines_of 6 path.now (reason_of self)) }
    {
        let mut text = Vec::new(alloc);
        text.extend_from_slice(b"file fault\n")?;
        text.extend_from_slice(path.as_bytes())?;
        text.extend_from_slice(b": ")?;
        self.push_reason(&mut text)?;
        text.extend_from_slice(b"\n")?;
        Ok(text)
    }
}
