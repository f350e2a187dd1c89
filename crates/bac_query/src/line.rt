//! The line of a device.

ghost use Rattle.std.specs.Prelude.{◌≡◌, ◌++◌, OnOk};
ghost use Rattle.bac_apdu.specs.Npdu.{maybe_place_of};
ghost use Rattle.bac_query.specs.Announcements.{announcement_of};
ghost use Rattle.bac_query.specs.Lines.{device_line, facts_text, named, place_text};

use crate::announcement::Announcement;
use bac_apdu::{Far, IAm};
use bac_print::{push_address, push_hex, push_number};
use std::alloc::AllocError;

/// Appends a word, and the number after it.
#[tactic(auto, unfolding(crate::specs::Lines::named))]
fn push_named(text: &mut Vec<u8>, word: &[u8], n: u64) -> Result<(), AllocError>
    ensures { OnOk result (text.new.items ≡ text.old.items ++ named word.now n) }
{
    text.extend_from_slice(word)?;
    push_number(text, n)
}

/// Appends the place of a device behind a router.
#[tactic(auto, unfolding(crate::specs::Lines::place_text))]
fn push_place(text: &mut Vec<u8>, place: Option<Far>) -> Result<(), AllocError>
    ensures { OnOk result
        (text.new.items ≡ text.old.items ++ place_text (maybe_place_of place.entry)) }
{
    let Some(far) = place else {
        return Ok(());
    };
    push_named(text, b" net ", u64::from(far.net))?;
    text.extend_from_slice(b" mac ")?;
    push_hex(text, far.address)
}

/// Appends what a device says of itself after its instance.
#[tactic(auto, unfolding(crate::specs::Lines::facts_text))]
fn push_facts(text: &mut Vec<u8>, i_am: &IAm) -> Result<(), AllocError>
    ensures { OnOk result (text.new.items ≡ text.old.items ++ facts_text i_am.now) }
{
    push_named(text, b" max-apdu ", i_am.max_apdu)?;
    push_named(text, b" segmentation ", u64::from(i_am.segmentation))?;
    push_named(text, b" vendor ", i_am.vendor)
}

/// Appends the line of a device: its instance, its address, its place if that is behind a
/// router, and what else it says of itself.
#[tactic(auto, unfolding(crate::specs::Lines::device_line))]
pub(crate) fn push_device(text: &mut Vec<u8>, said: &Announcement) -> Result<(), AllocError>
    ensures { OnOk result
        (text.new.items ≡ text.old.items ++ device_line (announcement_of said.now)) }
{
    push_named(text, b"I-Am ", u64::from(said.i_am.device.instance()))?;
    text.extend_from_slice(b" ")?;
    push_address(text, said.address)?;
    push_place(text, said.source)?;
    push_facts(text, &said.i_am)?;
    text.extend_from_slice(b"\n")
}
