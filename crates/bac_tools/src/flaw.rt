//! What is told of a bad reply to a walk.

ghost use Rattle.std.specs.Prelude.{◌≡◌, ◌++◌, OnOk};
ghost use Rattle.bac_tools.specs.Flaws.{around, in_all, reply_text};

use bac_print::push_number;
use bac_walk::ReplyFlaw;
use bac_wire::ObjectId;
use std::alloc::AllocError;

/// Appends a number between two texts.
fn push_around(text: &mut Vec<u8>, before: &str, number: u64, after: &str) -> Result<(), AllocError>
    ensures { OnOk result (text.new.items ≡ text.old.items ++ around before.now number after.now) }
{
    text.extend_from_slice(before.as_bytes())?;
    push_number(text, number)?;
    text.extend_from_slice(after.as_bytes())
}

/// Appends how many records a reply has.
fn push_records(text: &mut Vec<u8>, records: usize, after: &str) -> Result<(), AllocError>
    ensures { OnOk result (text.new.items ≡ text.old.items ++ in_all records after.now) }
{
    push_around(text, "the reply has records, ", records as u64, after)
}

/// Appends which service a reply is the ACK of, in place of ReadRange.
#[tactic(auto, unfolding(crate::specs::Flaws::reply_text))]
fn push_service(text: &mut Vec<u8>, service: u8) -> Result<(), AllocError>
    ensures { OnOk result
        (text.new.items ≡ text.old.items ++ reply_text (ReplyFlaw.Service service)) }
{
    push_around(
        text,
        "the reply is the ACK of service ",
        u64::from(service),
        "; ReadRange is 26",
    )
}

/// Appends which object a reply is of, in place of the trend log.
#[tactic(auto, unfolding(crate::specs::Flaws::reply_text))]
fn push_object(text: &mut Vec<u8>, id: ObjectId) -> Result<(), AllocError>
    ensures { OnOk result (text.new.items ≡ text.old.items ++ reply_text (ReplyFlaw.Object id)) }
{
    push_around(text, "the reply is of object ", u64::from(id.kind()), " ")?;
    push_around(text, "", u64::from(id.instance()), ", not of the trend log")
}

/// Appends which array index a reply has, in place of none.
#[tactic(auto, unfolding(crate::specs::Flaws::reply_text))]
fn push_index(text: &mut Vec<u8>, index: u32) -> Result<(), AllocError>
    ensures { OnOk result (text.new.items ≡ text.old.items ++ reply_text (ReplyFlaw.Index index)) }
{
    push_around(
        text,
        "the reply has array index ",
        u64::from(index),
        "; Log_Buffer has none",
    )
}

/// Appends which property a reply is of, in place of Log_Buffer.
#[tactic(auto, unfolding(crate::specs::Flaws::reply_text))]
fn push_property(text: &mut Vec<u8>, property: u32) -> Result<(), AllocError>
    ensures { OnOk result
        (text.new.items ≡ text.old.items ++ reply_text (ReplyFlaw.Property property)) }
{
    push_around(
        text,
        "the reply is of property ",
        u64::from(property),
        "; Log_Buffer is 131",
    )
}

/// Appends which item count a reply has, and how many records.
#[tactic(auto, unfolding(crate::specs::Flaws::reply_text))]
fn push_count(text: &mut Vec<u8>, count: u64, records: usize) -> Result<(), AllocError>
    ensures { OnOk result
        (text.new.items ≡ text.old.items ++ reply_text (ReplyFlaw.Count count records)) }
{
    push_records(text, records, " in all, and item count ")?;
    push_number(text, count)
}

/// Appends how many records a reply has, and how many were asked for.
#[tactic(auto, unfolding(crate::specs::Flaws::reply_text))]
fn push_too_many(text: &mut Vec<u8>, records: usize, asked: usize) -> Result<(), AllocError>
    ensures { OnOk result
        (text.new.items ≡ text.old.items ++ reply_text (ReplyFlaw.TooMany records asked)) }
{
    push_records(text, records, " in all; ")?;
    push_around(text, "", asked as u64, " were asked for")
}

/// Appends which records a reply has, how many and from which number on, and which were asked for.
#[tactic(auto, unfolding(crate::specs::Flaws::reply_text))]
fn push_unasked(
    text: &mut Vec<u8>,
    first: u32,
    records: usize,
    next: u32,
    asked: usize,
) -> Result<(), AllocError>
    ensures { OnOk result (text.new.items
        ≡ text.old.items ++ reply_text (ReplyFlaw.Unasked first records next asked)) }
{
    push_records(text, records, " in all, from number ")?;
    push_number(text, u64::from(first))?;
    push_around(text, " on; asked for were ", asked as u64, " from number ")?;
    push_around(text, "", u64::from(next), " on")
}

/// Appends which part of a reply is wrong, what is there, and what was asked for.
#[tactic(auto, unfolding(crate::specs::Flaws::reply_text))]
pub(crate) fn push_reply_flaw(text: &mut Vec<u8>, flaw: ReplyFlaw) -> Result<(), AllocError>
    ensures { OnOk result (text.new.items ≡ text.old.items ++ reply_text flaw) }
{
    match flaw {
        ReplyFlaw::NotComplex => {
            text.extend_from_slice(b"the reply isn't a ComplexACK, as a ReadRange needs")
        }
        ReplyFlaw::Segmented => {
            text.extend_from_slice(b"the reply is segmented, which bac doesn't support")
        }
        ReplyFlaw::Service(service) => push_service(text, service),
        ReplyFlaw::Parameters => {
            text.extend_from_slice(b"the reply's parameters aren't those of an ACK of ReadRange")
        }
        ReplyFlaw::Object(id) => push_object(text, id),
        ReplyFlaw::Index(index) => push_index(text, index),
        ReplyFlaw::Property(property) => push_property(text, property),
        ReplyFlaw::Item(place) => {
            push_around(text, "item ", place as u64, " of the reply is no record")
        }
        ReplyFlaw::NoNumber(records) => {
            push_records(text, records, " in all, and no first sequence number")
        }
        ReplyFlaw::Count { count, records } => push_count(text, count, records),
        ReplyFlaw::TooMany { records, asked } => push_too_many(text, records, asked),
        ReplyFlaw::Unasked {
            first,
            records,
            next,
            asked,
        } => push_unasked(text, first, records, next, asked),
    }
}
