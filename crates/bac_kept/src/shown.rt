//! The logs that are shown, and the lines that name them.

ghost use Rattle.std.specs.Prelude.{◌≡◌, [], ◌++◌, IfOk, OnOk, map};
ghost use Rattle.std.specs.List.{cons_option};
ghost use Rattle.std.specs.Prelude.{IfErr, OnErr, length, option_copied, option_map};
ghost use Rattle.std.specs.Io.KnownBytes.{Appends};
ghost use Rattle.bac_print.specs.Output.{AppendsPart};
ghost use Rattle.bac_kept.specs.Faults.{EndsText};
ghost use Rattle.bac_kept.specs.Heads.{head_line, place_text};
ghost use Rattle.bac_kept.specs.Shown.{device_with, has_heads, shown_logs, shown_of, told_of};

use crate::fault::Fault;
use crate::words::Choice;
use bac_archive::{BeginningRow, DeviceRow, Known, LogRow};
use bac_print::{push_number, write_text};
use std::alloc::{AllocError, Global};
use std::io::Write;

/// A log that is shown, with its device, and where the epochs of logs begin.
#[derive(Clone, Copy)]
pub(crate) struct ShownLog<'a> {
    pub(crate) device: &'a DeviceRow,
    pub(crate) log: &'a LogRow,
    pub(crate) beginnings: &'a [BeginningRow],
}

/// The device with this id, if there is one.
fn device_with(devices: &[DeviceRow], id: u16) -> Option<&DeviceRow>
    ensures { option_copied result ≡ device_with devices.now id }
{
    for device in devices {
        if device.id == id {
            return Some(device);
        }
    }
    None
}

/// A log, with its device, if it is chosen. One whose device isn't on record is shown nowhere.
pub(crate) fn shown_of<'a>(
    known: &'a Known,
    choice: Choice<'_>,
    log: &'a LogRow,
) -> Option<ShownLog<'a>>
    ensures { option_map told_of result ≡ shown_of known.now choice.entry log.now }
{
    let device = device_with(known.devices.as_slice(), log.device)?;
    if !choice.has(device, log) {
        return None;
    }
    Some(ShownLog {
        device,
        log,
        beginnings: known.beginnings.as_slice(),
    })
}

/// These logs, and behind them one that there may be.
pub(crate) fn with_shown<'a>(
    all: Vec<ShownLog<'a>>,
    shown: Option<ShownLog<'a>>,
) -> Result<Vec<ShownLog<'a>>, AllocError>
    ensures { IfOk result (λ new. map told_of new.items
        ≡ map told_of all.entry.items ++ cons_option (option_map told_of shown.entry) []) }
{
    let mut all = all;
    if let Some(shown) = shown {
        all.push(shown)?;
    }
    Ok(all)
}

/// The logs that are chosen, in the order of their ids.
pub(crate) fn shown_logs<'a>(
    alloc: Global,
    known: &'a Known,
    choice: Choice<'_>,
) -> Result<Vec<ShownLog<'a>>, AllocError>
    ensures { IfOk result (λ all. map told_of all.items ≡ shown_logs known.now choice.entry) }
{
    let mut all = Vec::new(alloc);
    for log in known.logs.as_slice() {
        all = with_shown(all, shown_of(known, choice, log))?;
    }
    Ok(all)
}

/// Whether the lines of each log stand behind one that names it: unless one log was named, and
/// there is one such.
pub(crate) fn has_heads(choice: Choice<'_>, all: &[ShownLog<'_>]) -> bool
    ensures { result ≡ has_heads choice.entry (length all.now) }
{
    !(choice.names_one() && all.len() == 1)
}

/// Appends a device's address, and for one behind a router its network and its address there.
#[tactic(auto, unfolding(crate::specs::Heads::place_text))]
pub(crate) fn push_place(text: &mut Vec<u8>, device: &DeviceRow) -> Result<(), AllocError>
    ensures { OnOk result (text.new.items ≡ text.old.items ++ place_text device.now) }
{
    text.extend_from_slice(device.address.as_bytes())?;
    if device.dnet != 0 {
        text.push(b'/')?;
        push_number(text, u64::from(device.dnet))?;
        text.push(b'/')?;
        text.extend_from_slice(device.dadr.as_bytes())?;
    }
    Ok(())
}

/// Appends a line that names a log, and tells whether it isn't asked any more.
#[tactic(auto, unfolding(crate::specs::Heads::head_line))]
fn push_head(text: &mut Vec<u8>, shown: &ShownLog<'_>) -> Result<(), AllocError>
    ensures { OnOk result (text.new.items ≡ text.old.items ++ head_line (told_of shown.now)) }
{
    push_place(text, shown.device)?;
    text.push(b' ')?;
    push_number(text, u64::from(shown.log.instance))?;
    if shown.log.stopped || shown.device.stopped {
        text.extend_from_slice(b" stopped")?;
    }
    text.push(b'\n')?;
    Ok(())
}

/// Prints the line that names a log.
pub(crate) fn print_head<O: Write>(
    alloc: Global,
    shown: &ShownLog<'_>,
    output: &mut O,
) -> Result<(), Fault>
    ensures ok { OnOk result
        (Appends (O.contents output.old) (O.contents output.new) (head_line (told_of shown.now))) }
    ensures err { OnErr result
        (AppendsPart (O.contents output.old) (O.contents output.new)
        (head_line (told_of shown.now))) }
    ensures fault { IfErr result EndsText }
{
    let mut text = Vec::new(alloc);
    if push_head(&mut text, shown).is_err() {
        return Err(Fault::Memory);
    }
    match write_text(output, text.as_slice()) {
        Ok(()) => Ok(()),
        Err(_) => Err(Fault::Write),
    }
}
