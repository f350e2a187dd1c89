//! What a device tells of its trend logs, as a table (clause 12.25).

ghost use Rattle.std.specs.Prelude.{◌≡◌, ◌≤◌, ◌+◌, ◌*◌, length};
ghost use Rattle.bac_wire.specs.Primitive.{Id};
ghost use Rattle.bac_query.specs.ObjectList.{AreObjects, IsObject, octets_at};
ghost use Rattle.bac_query.specs.Reading.{printing};
ghost use Rattle.bac_query.specs.Tables.{AddsCell, AddsCells, AddsRow, ListsLogs, PrintsEach};
ghost use Rattle.bac_query.specs.Tables.{PrintsListed, PrintsListedAt, PrintsLogs, PrintsObject};
ghost use Rattle.bac_query.specs.Tables.{PrintsObjects, PrintsPlace, PrintsRow, PrintsRows};
ghost use Rattle.bac_query.specs.Tables.{Questions, client, property_of};

use crate::answers::number_in;
use crate::cells::push_answer;
use crate::fault::QueryFault;
use crate::object_list::{list_at, listed_in, object_at, object_in, whole_list};
use crate::reading::print;
use bac_apdu::ReadProperty;
use bac_apdu::object_type::TREND_LOG;
use bac_link::{ExchangeFault, LogLink, Request, Transactions, exchange};
use bac_print::push_number;
use bac_wire::{Datagram, ObjectId};
use std::alloc::Global;
use std::io::Write;

/// The properties in the order of the columns: Object_Name, Log_DeviceObjectProperty, Enable,
/// Logging_Type, Log_Interval, Record_Count, Buffer_Size, Total_Record_Count, Stop_When_Full.
const COLUMNS: [u32; 9] = [77, 132, 133, 197, 134, 141, 126, 145, 144];

// ---- one question

/// Asks for a property.
fn ask<L: LogLink>(
    link: &mut L,
    transactions: &mut Transactions,
    question: ReadProperty,
) -> Result<Datagram, ExchangeFault>
    ensures { Questions L.asks question (client link.old transactions.old) result
        (client link.new transactions.new) }
{
    let request = Request::ReadProperty(question);
    exchange(link, transactions, &request)
}

/// A property of an object, whole.
fn property_of(object: ObjectId, property: u32) -> ReadProperty
    ensures { result ≡ property_of object property }
{
    ReadProperty {
        object,
        property,
        index: None,
    }
}

// ---- a log, a line

/// Asks for a property, and appends the cell of what comes behind a tab.
fn add_cell<L: LogLink>(
    link: &mut L,
    transactions: &mut Transactions,
    question: ReadProperty,
    text: &mut Vec<u8>,
) -> Result<(), QueryFault>
    ensures { AddsCell L.asks question (printing (client link.old transactions.old) text.old.items)
        result (printing (client link.new transactions.new) text.new.items) }
{
    let property = question.property;
    let answer = ask(link, transactions, question);
    text.extend_from_slice(b"\t")?;
    push_answer(text, property, answer)
}

/// Appends the cells of these properties of a log.
fn add_cells<L: LogLink>(
    link: &mut L,
    transactions: &mut Transactions,
    log: ObjectId,
    properties: &[u32],
    text: &mut Vec<u8>,
) -> Result<(), QueryFault>
    ensures { AddsCells L.asks log properties.now
        (printing (client link.old transactions.old) text.old.items) result
        (printing (client link.new transactions.new) text.new.items) }
{
    for property in properties {
        add_cell(link, transactions, property_of(log, *property), text)?;
    }
    Ok(())
}

/// Appends the line of a log.
fn add_row<L: LogLink>(
    link: &mut L,
    transactions: &mut Transactions,
    log: ObjectId,
    text: &mut Vec<u8>,
) -> Result<(), QueryFault>
    ensures { AddsRow L.asks log (printing (client link.old transactions.old) text.old.items) result
        (printing (client link.new transactions.new) text.new.items) }
{
    push_number(text, u64::from(log.instance()))?;
    add_cells(link, transactions, log, &COLUMNS, text)?;
    text.extend_from_slice(b"\n")?;
    Ok(())
}

/// Prints the line of a log, with one write.
fn print_row<L: LogLink, W: Write>(
    alloc: Global,
    link: &mut L,
    transactions: &mut Transactions,
    log: ObjectId,
    out: &mut W,
) -> Result<(), QueryFault>
    ensures { PrintsRow L.asks log
        (printing (client link.old transactions.old) (W.contents out.old)) result
        (printing (client link.new transactions.new) (W.contents out.new)) }
{
    let mut line = Vec::new(alloc);
    match add_row(link, transactions, log, &mut line) {
        Ok(()) => print(&line, out),
        Err(fault) => Err(fault),
    }
}

/// Prints the line of each of these logs.
fn print_rows<L: LogLink, W: Write>(
    alloc: Global,
    link: &mut L,
    transactions: &mut Transactions,
    logs: &[ObjectId],
    out: &mut W,
) -> Result<(), QueryFault>
    ensures { PrintsRows L.asks logs.now
        (printing (client link.old transactions.old) (W.contents out.old)) result
        (printing (client link.new transactions.new) (W.contents out.new)) }
{
    for log in logs {
        print_row(alloc, link, transactions, *log, out)?;
    }
    Ok(())
}

// ---- the logs that a device lists

/// Prints the line of an object of the list, if it is a trend log.
fn print_object<L: LogLink, W: Write>(
    alloc: Global,
    link: &mut L,
    transactions: &mut Transactions,
    object: ObjectId,
    out: &mut W,
) -> Result<(), QueryFault>
    ensures { PrintsObject L.asks object
        (printing (client link.old transactions.old) (W.contents out.old)) result
        (printing (client link.new transactions.new) (W.contents out.new)) }
{
    if object.kind() != TREND_LOG {
        return Ok(());
    }
    print_row(alloc, link, transactions, object, out)
}

/// Prints the line of the object at a place of the list, from 1 on.
fn print_place<L: LogLink, W: Write>(
    alloc: Global,
    link: &mut L,
    transactions: &mut Transactions,
    place: u32,
    out: &mut W,
) -> Result<(), QueryFault>
    ensures { PrintsPlace L.asks place
        (printing (client link.old transactions.old) (W.contents out.old)) result
        (printing (client link.new transactions.new) (W.contents out.new)) }
{
    let datagram = match ask(link, transactions, list_at(place)) {
        Ok(datagram) => datagram,
        Err(fault) => return Err(QueryFault::Exchange(fault)),
    };
    match object_in(&datagram) {
        Some(object) => print_object(alloc, link, transactions, object, out),
        None => Err(QueryFault::Exchange(ExchangeFault::BadReply)),
    }
}

/// Prints the lines of so many places of the list.
fn print_places<L: LogLink, W: Write>(
    alloc: Global,
    link: &mut L,
    transactions: &mut Transactions,
    count: u32,
    out: &mut W,
) -> Result<(), QueryFault>
    ensures { PrintsEach (PrintsPlace L.asks) 1 count
        (printing (client link.old transactions.old) (W.contents out.old)) result
        (printing (client link.new transactions.new) (W.contents out.new)) }
{
    for place in 0..count {
        print_place(alloc, link, transactions, place + 1, out)?;
    }
    Ok(())
}

/// Prints the line of the object at a place of a list that was told whole, from 0 on.
fn print_listed_at<L: LogLink, W: Write>(
    alloc: Global,
    link: &mut L,
    transactions: &mut Transactions,
    values: &[u8],
    place: u32,
    out: &mut W,
) -> Result<(), QueryFault>
    requires within { 5 * place + 5 ≤ length values.now }
    requires is { (object : Id) × IsObject object (octets_at place values.now) }
    ensures { PrintsListedAt L.asks values.now place
        (printing (client link.old transactions.old) (W.contents out.old)) result
        (printing (client link.new transactions.new) (W.contents out.new)) }
{
    match object_at(values, place) {
        Some(object) => print_object(alloc, link, transactions, object, out),
        None => unreachable!(),
    }
}

/// Prints the line of each trend log among so many object identifiers.
fn print_among<L: LogLink, W: Write>(
    alloc: Global,
    link: &mut L,
    transactions: &mut Transactions,
    values: &[u8],
    count: u32,
    out: &mut W,
) -> Result<(), QueryFault>
    requires { AreObjects count values.now }
    ensures { PrintsEach (PrintsListedAt L.asks values.now) 0 count
        (printing (client link.old transactions.old) (W.contents out.old)) result
        (printing (client link.new transactions.new) (W.contents out.new)) }
{
    for place in 0..count {
        print_listed_at(alloc, link, transactions, values, place, out)?;
    }
    Ok(())
}

/// Prints the line of each trend log of a device that has so many objects, in the order of its
/// list: as one answer tells it whole, which most lists fit; or else place by place.
fn print_objects<L: LogLink, W: Write>(
    alloc: Global,
    link: &mut L,
    transactions: &mut Transactions,
    count: u32,
    out: &mut W,
) -> Result<(), QueryFault>
    ensures { PrintsObjects L.asks count
        (printing (client link.old transactions.old) (W.contents out.old)) result
        (printing (client link.new transactions.new) (W.contents out.new)) }
{
    let answer = ask(link, transactions, whole_list());
    match listed_in(&answer, count) {
        Some(values) => print_among(alloc, link, transactions, values, count, out),
        None => print_places(alloc, link, transactions, count, out),
    }
}

/// Prints the line of each trend log in the device's list.
fn print_listed<L: LogLink, W: Write>(
    alloc: Global,
    link: &mut L,
    transactions: &mut Transactions,
    out: &mut W,
) -> Result<(), QueryFault>
    ensures { PrintsListed L.asks (printing (client link.old transactions.old) (W.contents out.old))
        result (printing (client link.new transactions.new) (W.contents out.new)) }
{
    let datagram = match ask(link, transactions, list_at(0)) {
        Ok(datagram) => datagram,
        Err(fault) => return Err(QueryFault::Exchange(fault)),
    };
    match number_in(&datagram) {
        Some(count) => print_objects(alloc, link, transactions, count, out),
        None => Err(QueryFault::Exchange(ExchangeFault::BadReply)),
    }
}

// ---- the table

/// Prints the lines of these logs, or of each in the device's list if there are none.
fn print_logs<L: LogLink, W: Write>(
    alloc: Global,
    link: &mut L,
    transactions: &mut Transactions,
    logs: &[ObjectId],
    out: &mut W,
) -> Result<(), QueryFault>
    ensures { PrintsLogs L.asks logs.now
        (printing (client link.old transactions.old) (W.contents out.old)) result
        (printing (client link.new transactions.new) (W.contents out.new)) }
{
    if logs.is_empty() {
        return print_listed(alloc, link, transactions, out);
    }
    print_rows(alloc, link, transactions, logs, out)
}

/// Prints a table of these trend logs of a device, or of each in its Object_List if there are none
/// (clause 12.25): a line of names, and a line for each log, whose cells are parted by tabs. Each
/// property is asked for by itself. A cell is `-` if the device refuses, and `?` if what came can't
/// be read. The first question without an answer ends the table, but for the one for the whole
/// list: behind that each place is asked for.
pub fn list_logs<L: LogLink, W: Write>(
    alloc: Global,
    link: &mut L,
    transactions: &mut Transactions,
    logs: &[ObjectId],
    out: &mut W,
) -> Result<(), QueryFault>
    ensures { ListsLogs L.asks logs.now
        (printing (client link.old transactions.old) (W.contents out.old)) result
        (printing (client link.new transactions.new) (W.contents out.new)) }
{
    print(
        b"instance\tname\tlogs\tenable\ttype\tinterval\trecords\tbuffer\ttotal\tstop\n",
        out,
    )?;
    print_logs(alloc, link, transactions, logs, out)
}
