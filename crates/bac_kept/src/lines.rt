//! Items as lines.

ghost use Rattle.std.specs.Prelude.{◌≡◌, ◌∷◌, [], ◌++◌, ◌==◌, find, OnOk, Some};
ghost use Rattle.std.specs.Prelude.{option_copied};
ghost use Rattle.bac_kept.specs.Lines.{anew_if, doubt, item_line, why_in, why_of};
ghost use Rattle.bac_kept.specs.Shown.{told_of};

use crate::shown::ShownLog;
use bac_archive::{BeginningRow, Item};
use bac_print::push_number;
use std::alloc::AllocError;

/// How many epochs a log has.
const EPOCHS: u32 = 32_768;

/// Appends a blank and a text.
fn push_part(text: &mut Vec<u8>, part: &[u8]) -> Result<(), AllocError>
    ensures { OnOk result (text.new.items ≡ text.old.items ++ (32 ∷ part.now)) }
{
    text.push(b' ')?;
    text.extend_from_slice(part)
}

/// Appends the end of the line of a gap: where it may be none, its datum says that.
fn push_doubt(text: &mut Vec<u8>, datum: &[u8]) -> Result<(), AllocError>
    ensures { OnOk result (text.new.items ≡ text.old.items ++ (doubt datum.now ++ 10 ∷ [])) }
{
    if !datum.is_empty() {
        push_part(text, datum)?;
    }
    text.push(b'\n')?;
    Ok(())
}

/// Appends the line of a gap.
#[tactic(auto, unfolding(crate::specs::Lines::item_line))]
fn push_gap(text: &mut Vec<u8>, first: u32, last: u32, datum: &[u8]) -> Result<(), AllocError>
    ensures { OnOk result
        (text.new.items ≡ text.old.items ++ item_line first (Some last) [] datum.now []) }
{
    text.extend_from_slice(b"gap ")?;
    push_number(text, u64::from(first))?;
    text.push(b' ')?;
    push_number(text, u64::from(last))?;
    push_doubt(text, datum)
}

/// Appends the line of an item: a record with its number, or the first and the last of the numbers
/// that are missing.
#[tactic(auto, unfolding(crate::specs::Lines::item_line))]
fn push_item(text: &mut Vec<u8>, item: &Item<'_>) -> Result<(), AllocError>
    ensures { OnOk result (text.new.items ≡ text.old.items
        ++ item_line item.now.number item.now.last item.now.stamp.now item.now.datum.now
        item.now.flags.now) }
{
    if let Some(last) = item.last {
        return push_gap(text, item.number, last, item.datum);
    }
    push_number(text, u64::from(item.number))?;
    push_part(text, item.stamp)?;
    push_part(text, item.datum)?;
    push_part(text, item.flags)?;
    text.push(b'\n')?;
    Ok(())
}

/// The beginning with this id, if there is one.
fn beginning_with(beginnings: &[BeginningRow], id: u32) -> Option<&BeginningRow>
    ensures { option_copied result ≡ find (λ b. b.id == id) beginnings.now }
{
    for beginning in beginnings {
        if beginning.id == id {
            return Some(beginning);
        }
    }
    None
}

/// Why an epoch begins.
fn why_of(beginning: Option<&BeginningRow>) -> &[u8]
    ensures { result.now ≡ why_of (option_copied beginning.entry) }
{
    match beginning {
        Some(beginning) => match &beginning.why {
            Some(why) => why.as_bytes(),
            None => b"began anew",
        },
        None => b"began anew",
    }
}

/// Why an epoch of a log begins.
fn why_in<'a>(shown: &ShownLog<'a>, epoch: u16) -> &'a [u8]
    ensures { result.now ≡ why_in (told_of shown.now) epoch }
{
    let id = u32::from(shown.log.id) * EPOCHS + u32::from(epoch);
    why_of(beginning_with(shown.beginnings, id))
}

/// Appends the lines of an item, behind one of an epoch: a line before it tells why another one
/// begins.
#[tactic(auto, unfolding(crate::specs::Lines::anew_if))]
pub(crate) fn push_lines(
    text: &mut Vec<u8>,
    item: &Item<'_>,
    before: Option<u16>,
    shown: &ShownLog<'_>,
) -> Result<(), AllocError>
    ensures { OnOk result (text.new.items ≡ text.old.items
        ++ (anew_if (told_of shown.now) before item.now.epoch ++ item_line item.now.number
        item.now.last item.now.stamp.now item.now.datum.now item.now.flags.now)) }
{
    if let Some(before) = before {
        if before != item.epoch {
            text.extend_from_slice(why_in(shown, item.epoch))?;
            text.push(b'\n')?;
        }
    }
    push_item(text, item)
}
