//! Records of trend logs, and the lines of what a walk delivers.

ghost use Rattle.std.specs.Prelude.{◌≡◌, ◌∷◌, [], ◌++◌, OnOk, codes, decimal};
ghost use Rattle.std.specs.Int.{w32, to_be_bytes};
ghost use Rattle.bac_print.specs.Numbers.{called, called_hex};
ghost use Rattle.bac_print.specs.Entries.{datum_text, first_bits, flags_text, gap_line};
ghost use Rattle.bac_print.specs.Entries.{record_line};

use crate::moments::push_head;
use crate::numbers::{
    bit_digit, push_called_bits, push_called_hex, push_called_number, push_called_two,
    push_counted, push_number, push_signed,
};
use crate::values::push_boolean;
use bac_log::{Datum, Entry};
use std::alloc::AllocError;

/// Appends a bit string of at most 32 bits, the first of them the highest of `bits`.
fn push_bit_string(text: &mut Vec<u8>, count: u8, bits: u32) -> Result<(), AllocError>
    ensures { OnOk result (text.new.items
        ≡ text.old.items ++ called (codes "bits") (first_bits count (to_be_bytes w32 bits))) }
{
    let unused = 32usize.saturating_sub(usize::from(count));
    push_called_bits(text, "bits", &bits.to_be_bytes(), unused)
}

/// Appends a log-status.
fn push_status(text: &mut Vec<u8>, bits: u8) -> Result<(), AllocError>
    ensures { OnOk result
        (text.new.items ≡ text.old.items ++ called (codes "status") (first_bits 3 (bits ∷ []))) }
{
    text.extend_from_slice(&[
        b's',
        b't',
        b'a',
        b't',
        b'u',
        b's',
        b'(',
        bit_digit(bits, 7),
        bit_digit(bits, 6),
        bit_digit(bits, 5),
        b')',
    ])
}

/// Appends a REAL's octets.
fn push_real(text: &mut Vec<u8>, octets: [u8; 4]) -> Result<(), AllocError>
    ensures { OnOk result (text.new.items ≡ text.old.items ++ called_hex (codes "real") octets) }
{
    let mut room = *b"real(........)";
    match hex::encode_to_slice(&octets, &mut room[5..13]) {
        Ok(()) => text.extend_from_slice(&room),
        Err(_) => unreachable!(),
    }
}

/// Appends an Enumerated.
#[tactic(auto, using(crate::proofs::PlainMoments::one_digit))]
fn push_enumerated(text: &mut Vec<u8>, n: u32) -> Result<(), AllocError>
    ensures { OnOk result (text.new.items ≡ text.old.items ++ called (codes "enum") (decimal n)) }
{
    if n < 10 {
        return text.extend_from_slice(&[b'e', b'n', b'u', b'm', b'(', b'0' + n as u8, b')']);
    }
    push_called_number(text, "enum", n as u64)
}

/// Appends what was logged.
#[tactic(auto, unfolding(crate::specs::Entries::datum_text))]
pub fn push_datum(text: &mut Vec<u8>, datum: &Datum) -> Result<(), AllocError>
    ensures { OnOk result (text.new.items ≡ text.old.items ++ datum_text datum.now) }
{
    match *datum {
        Datum::LogStatus(bits) => push_status(text, bits),
        Datum::Boolean(flag) => push_boolean(text, flag),
        Datum::Real4(octets) => push_real(text, octets),
        Datum::Enumerated(n) => push_enumerated(text, n),
        Datum::Unsigned(n) => push_number(text, n),
        Datum::Signed(z) => push_signed(text, z),
        Datum::Bits { count, bits } => push_bit_string(text, count, bits),
        Datum::LongBits(count) => push_counted(text, "bits", u64::from(count)),
        Datum::Null => text.extend_from_slice(b"null"),
        Datum::Failure { class, code } => {
            push_called_two(text, "failure", u64::from(class), u64::from(code))
        }
        Datum::TimeChange(octets) => push_called_hex(text, "time-change", octets.as_slice()),
        Datum::Any(octets) => push_counted(text, "any", u64::from(octets)),
    }
}

/// Appends the four status flags, or `-` if there are none.
#[tactic(auto, unfolding(crate::specs::Entries::flags_text))]
pub fn push_flags(text: &mut Vec<u8>, flags: Option<u8>) -> Result<(), AllocError>
    ensures { OnOk result (text.new.items ≡ text.old.items ++ flags_text flags) }
{
    match flags {
        Some(flags) => text.extend_from_slice(&[
            bit_digit(flags, 7),
            bit_digit(flags, 6),
            bit_digit(flags, 5),
            bit_digit(flags, 4),
        ]),
        None => text.extend_from_slice(b"-"),
    }
}

/// Appends a blank, the status flags and a line feed.
#[tactic(auto, unfolding(crate::specs::Entries::flags_text))]
fn push_last_flags(text: &mut Vec<u8>, flags: Option<u8>) -> Result<(), AllocError>
    ensures { OnOk result
        (text.new.items ≡ text.old.items ++ (32 ∷ (flags_text flags ++ 10 ∷ []))) }
{
    match flags {
        Some(flags) => text.extend_from_slice(&[
            b' ',
            bit_digit(flags, 7),
            bit_digit(flags, 6),
            bit_digit(flags, 5),
            bit_digit(flags, 4),
            b'\n',
        ]),
        None => text.extend_from_slice(b" -\n"),
    }
}

/// Appends a log-status without status flags, and a line feed.
#[tactic(auto, unfolding(crate::specs::Entries::datum_text, crate::specs::Entries::flags_text))]
fn push_lone_status(text: &mut Vec<u8>, bits: u8) -> Result<(), AllocError>
    ensures { OnOk result (text.new.items ≡ text.old.items
        ++ (called (codes "status") (first_bits 3 (bits ∷ [])) ++ (32 ∷ (45 ∷ 10 ∷ [])))) }
{
    text.extend_from_slice(&[
        b's',
        b't',
        b'a',
        b't',
        b'u',
        b's',
        b'(',
        bit_digit(bits, 7),
        bit_digit(bits, 6),
        bit_digit(bits, 5),
        b')',
        b' ',
        b'-',
        b'\n',
    ])
}

/// Appends what was logged, the status flags and a line feed.
#[tactic(auto, unfolding(crate::specs::Entries::datum_text, crate::specs::Entries::flags_text))]
fn push_logged(text: &mut Vec<u8>, datum: &Datum, flags: Option<u8>) -> Result<(), AllocError>
    ensures { OnOk result (text.new.items
        ≡ text.old.items ++ (datum_text datum.now ++ (32 ∷ (flags_text flags ++ 10 ∷ [])))) }
{
    if let (Datum::LogStatus(bits), None) = (datum, flags) {
        return push_lone_status(text, *bits);
    }
    push_datum(text, datum)?;
    push_last_flags(text, flags)
}

/// Appends the line of a record: its sequence number, its date and time, what was logged, and its
/// four status flags, or `-` if it has none.
#[tactic(auto, unfolding(crate::specs::Entries::record_line, crate::specs::Entries::entry_text))]
pub fn push_record(text: &mut Vec<u8>, number: u32, entry: &Entry) -> Result<(), AllocError>
    ensures { OnOk result (text.new.items ≡ text.old.items ++ record_line number entry.now) }
{
    push_head(text, number, entry.date, entry.time)?;
    push_logged(text, &entry.datum, entry.flags)
}

/// Appends the line of a gap: the first and the last of the sequence numbers that are missing.
#[tactic(auto, unfolding(crate::specs::Entries::gap_line))]
pub fn push_gap(text: &mut Vec<u8>, first: u32, last: u32) -> Result<(), AllocError>
    ensures { OnOk result (text.new.items ≡ text.old.items ++ gap_line first last) }
{
    text.extend_from_slice(b"gap ")?;
    push_number(text, u64::from(first))?;
    text.extend_from_slice(b" ")?;
    push_number(text, u64::from(last))?;
    text.extend_from_slice(b"\n")
}
