//! Since when devices are silent.

ghost use Rattle.std.specs.Prelude.{◌≡◌, ◌++◌, OnOk, option_copied, take};
ghost use Rattle.bac_kept.specs.Silence.{answer_of, is_long_before, last_answer};
ghost use Rattle.bac_kept.specs.Silence.{later, silence, silence_end};

use crate::hours::is_next_hour;
use bac_archive::DeviceRow;
use std::alloc::AllocError;

/// The first octets of a text.
fn front(text: &str, count: usize) -> &[u8]
    ensures { result.now ≡ take count text.now }
{
    let octets = text.as_bytes();
    if octets.len() < count {
        return octets;
    }
    &octets[..count]
}

/// Whether a moment lies long before another: neither in its hour nor in the one before that.
fn is_long_before(moment: &str, other: &str) -> bool
    ensures { result ≡ is_long_before moment.now other.now }
{
    front(moment, 13).cmp(front(other, 13)).is_lt() && !is_next_hour(moment, other)
}

/// When a device answered last, if it did.
fn answer_of(device: &DeviceRow) -> Option<&str>
    ensures { option_copied result ≡ answer_of device.now }
{
    match &device.answered {
        Some(moment) => Some(moment.as_str()),
        None => None,
    }
}

/// The later of two moments, if there are any.
fn later<'a>(last: Option<&'a str>, answer: Option<&'a str>) -> Option<&'a str>
    ensures { option_copied result
        ≡ later (option_copied last.entry) (option_copied answer.entry) }
{
    let Some(known) = last else {
        return answer;
    };
    match answer {
        Some(moment) if known < moment => Some(moment),
        _ => Some(known),
    }
}

/// When any of these devices answered last.
pub(crate) fn last_answer(devices: &[DeviceRow]) -> Option<&str>
    ensures { option_copied result ≡ last_answer devices.now }
{
    let mut last = None;
    for device in devices {
        last = later(last, answer_of(device));
    }
    last
}

/// Since when a device is silent, where devices answered last at this moment: its last answer, if
/// that lies long before, or that it never answered. Nothing of one that is heard, or where no
/// device ever answered.
pub(crate) fn silence<'a>(device: &'a DeviceRow, last: Option<&str>) -> &'a [u8]
    ensures { result.now ≡ silence (option_copied last.entry) (answer_of device.now) }
{
    let Some(last) = last else {
        return b"";
    };
    let Some(answer) = answer_of(device) else {
        return b"never answered";
    };
    if is_long_before(answer, last) {
        return answer.as_bytes();
    }
    b""
}

/// Appends this to the line of a log of the device.
pub(crate) fn push_silence(
    text: &mut Vec<u8>,
    device: &DeviceRow,
    silence: &[u8],
) -> Result<(), AllocError>
    ensures { OnOk result
        (text.new.items ≡ text.old.items ++ silence_end (answer_of device.now) silence.now) }
{
    if silence.is_empty() {
        return Ok(());
    }
    match device.answered {
        Some(_) => text.extend_from_slice(b" silent since ")?,
        None => text.push(b' ')?,
    }
    text.extend_from_slice(silence)
}
