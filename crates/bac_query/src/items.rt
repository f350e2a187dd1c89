//! The lines of records and gaps.

ghost use Rattle.std.specs.Prelude.{◌≡◌, ◌++◌, OnOk};
ghost use Rattle.bac_query.specs.Items.{item_line, items_text, number_before};

use bac_link::Item;
use bac_print::{push_gap, push_record};
use std::alloc::AllocError;

/// The number before another: before 1 comes 4294967295.
pub(crate) fn number_before(n: u32) -> u32
    ensures { result ≡ number_before n }
{
    if n == 1 {
        4294967295
    } else {
        n.saturating_sub(1)
    }
}

/// Appends the line of an item: a record with its sequence number, or the first and the last of the
/// numbers that are missing.
pub fn push_item(text: &mut Vec<u8>, item: &Item) -> Result<(), AllocError>
    ensures { OnOk result (text.new.items ≡ text.old.items ++ item_line item.now) }
{
    match item {
        Item::Gap { first, before } => push_gap(text, *first, number_before(*before)),
        Item::Logged { number, entry } => push_record(text, *number, entry),
    }
}

/// Appends the lines of items, one after the other.
pub fn push_items(text: &mut Vec<u8>, items: &[Item]) -> Result<(), AllocError>
    ensures { OnOk result (text.new.items ≡ text.old.items ++ items_text items.now) }
{
    for item in items {
        push_item(text, item)?;
    }
    Ok(())
}
