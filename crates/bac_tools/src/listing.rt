//! Lists that stand on standard input.

ghost use Rattle.std.specs.Prelude.{◌≡◌, ◌+◌, ◌≤◌, length};
ghost use Rattle.bac_tools.specs.Finding.{IsListWithin, IsTextWithin};
ghost use Rattle.bac_command_line.specs.Devices.{devices_of};
ghost use Rattle.bac_command_line.specs.Listing.{addresses_of};

use bac_command_line::{Addresses, Groups, ListFault, read_addresses, read_devices};
use bac_script::{Ending, LIMIT, fill};
use std::alloc::Global;
use std::io::Read;

/// The text that the input has to its end, which is read into the buffer.
fn text_in<I: Read>(limit: usize, buffer: Vec<u8>, input: &mut I) -> Result<Vec<u8>, ListFault>
    requires { length buffer.items ≡ limit + 1 }
    ensures { IsTextWithin limit (I.remaining input.old) (I.remaining input.new) result }
{
    let mut text = buffer;
    let (filled, ending) = fill(input, &mut text);
    match ending {
        Ending::End => {
            text.truncate(filled);
            Ok(text)
        }
        Ending::Full => Err(ListFault::TooLong),
        Ending::Refused => Err(ListFault::Read),
    }
}

/// The same, with a buffer of its own.
fn text_within<I: Read>(alloc: Global, limit: usize, input: &mut I) -> Result<Vec<u8>, ListFault>
    requires { limit ≤ LIMIT }
    ensures { IsTextWithin limit (I.remaining input.old) (I.remaining input.new) result }
{
    match vec![in alloc; 0u8; limit + 1] {
        Ok(buffer) => text_in(limit, buffer, input),
        Err(_) => Err(ListFault::Memory),
    }
}

/// The text that the input has to its end.
fn text<I: Read>(alloc: Global, input: &mut I) -> Result<Vec<u8>, ListFault>
    ensures { IsTextWithin 1048576 (I.remaining input.old) (I.remaining input.new) result }
{
    text_within(alloc, LIMIT, input)
}

/// Reads the addresses that the input lists, to its end.
#[tactic(auto, using(crate::proofs::WholeList::whole_list, crate::proofs::WholeList::no_list))]
pub(crate) fn listed_addresses<I: Read>(
    alloc: Global,
    input: &mut I,
) -> Result<Addresses, ListFault>
    ensures { IsListWithin addresses_of 1048576 (I.remaining input.old) (I.remaining input.new)
        result }
{
    match text(alloc, input) {
        Ok(text) => read_addresses(alloc, &text),
        Err(fault) => Err(fault),
    }
}

/// Reads the devices that the input lists, to its end: for `bac keep`.
#[tactic(auto, using(crate::proofs::WholeList::whole_list, crate::proofs::WholeList::no_list))]
pub fn listed_devices<I: Read>(alloc: Global, input: &mut I) -> Result<Groups, ListFault>
    ensures { IsListWithin devices_of 1048576 (I.remaining input.old) (I.remaining input.new)
        result }
{
    match text(alloc, input) {
        Ok(text) => read_devices(alloc, &text),
        Err(fault) => Err(fault),
    }
}
