//! What the text of one word says.

ghost use Rattle.std.specs.Prelude.{◌≡◌, option_map};
ghost use Rattle.bac_command_line.specs.Addresses.{address_in};
ghost use Rattle.bac_command_line.specs.Numbers.{number_in};
ghost use Rattle.bac_keep_command_line.specs.Values.{said, said_if, said_or, wrong};

use crate::fault::Fault;
use bac_command_line::{Name, Word, read_address, read_number, read_octet};
use bac_wire::Address;

/// The value of a word is wrong.
pub(crate) fn wrong(word: Word, text: Option<&str>) -> Fault
    ensures { result ≡ wrong word (option_map (λ s. s.now) text.entry) }
{
    match text {
        Some(text) => {
            if word.is_long(text) {
                Fault::LongNumber(word)
            } else {
                Fault::BadValue(word)
            }
        }
        None => Fault::BadValue(word),
    }
}

/// The address that the text of a word says.
pub(crate) fn address(word: Word, text: &str) -> Result<Address, Fault>
    ensures { result ≡ said address_in word text.now }
{
    match read_address(text) {
        Some(address) => Ok(address),
        None => Err(wrong(word, Some(text))),
    }
}

/// The same of a word that may be left out.
pub(crate) fn address_if(word: Word, text: &Option<Name>) -> Result<Option<Address>, Fault>
    ensures { result ≡ said_if address_in word text.now }
{
    match text {
        Some(text) => match address(word, text.as_str()) {
            Ok(address) => Ok(Some(address)),
            Err(fault) => Err(fault),
        },
        None => Ok(None),
    }
}

/// The number that the text of a word says, from `low` to `high`.
pub(crate) fn number(word: Word, text: &str, low: u32, high: u32) -> Result<u32, Fault>
    ensures { result ≡ said (number_in low high) word text.now }
{
    match read_number(text, low, high) {
        Some(number) => Ok(number),
        None => Err(wrong(word, Some(text))),
    }
}

/// The same, if an octet does.
pub(crate) fn octet(word: Word, text: &str, low: u8, high: u8) -> Result<u8, Fault>
    ensures { result ≡ said (number_in low high) word text.now }
{
    match read_octet(text, low, high) {
        Some(number) => Ok(number),
        None => Err(wrong(word, Some(text))),
    }
}
