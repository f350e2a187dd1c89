//! Finding devices: the requests, and the lines of the answers.

ghost use Rattle.std.specs.Prelude.{◌≡◌, None, OnErr, OnOk, Some};
ghost use Rattle.std.specs.Io.KnownBytes.{Appends};
ghost use Rattle.bac_query.specs.Announcements.{announced as announced_by};
ghost use Rattle.bac_query.specs.Finding.{Finds, Seeks, Settles, Turns, console, told_of};
ghost use Rattle.bac_query.specs.Hearing.{Hears, ReceivesBy, Shows, Takes, standing};
ghost use Rattle.bac_query.specs.Hearing.{port_rules, searching};
ghost use Rattle.bac_print.specs.Output.{AppendsPart};

use crate::announcement::announced;
use crate::find_fault::FindFault;
use crate::line::push_device;
use crate::request::datagram_of;
use crate::search::Search;
use crate::seeking::{MOST_PENDING, Seeking};
use bac_ports::{Heard, Port, SocketFault};
use bac_print::{WriteRefused, write_text};
use bac_wire::Address;
use std::alloc::Global;
use std::io::Write;

/// How many datagrams are received at most.
pub const RECEIVES: u32 = 4096;

/// How many milliseconds are waited for one of the pending addresses, where there are as many as
/// may be.
const PATIENCE_MS: u32 = 100;

/// Sends the request to each address in order, and prints a line for each I-Am that comes:
/// `I-Am INSTANCE A.B.C.D:PORT max-apdu N segmentation S vendor V`, each with one write, as far as
/// the output takes it at once, and flushed. An address is four octets of IPv4 address and two of
/// port, high octet first (Annex J.1.2); that of an I-Am is its sender's, or the one in a
/// Forwarded-NPDU. After it stands ` net N mac HEX` if the device is behind a router.
///
/// It goes by turns, so that answers don't wait in a buffer of the system's until that is full:
/// behind each request it takes what is already there, and where 100 addresses were asked and are
/// silent it waits for one of them, 100 milliseconds for each datagram; after that they count as
/// silent, and an answer that comes later is shown all the same. After the last request it receives
/// up to a wait of the port's in which nothing comes.
///
/// Other datagrams are passed over. After 4096 datagrams, whatever they are, no more are received.
/// A failed receive, a refused write and no memory for a line end it at once; the lines before
/// are written. A refused send ends nothing: the others are asked, their lines are printed, and the
/// first address that refused is told. Else it is `NoAnswer` if no I-Am came.
pub fn find_devices<P: Port, W: Write>(
    alloc: Global,
    port: &mut P,
    addresses: &[Address],
    search: &Search,
    out: &mut W,
) -> Result<(), FindFault>
    ensures { Finds (port_rules P.sends P.receives P.receives_within) 4096 search.now addresses.now
        (console port.old (W.contents out.old)) result (console port.new (W.contents out.new)) }
{
    let datagram = datagram_of(search);
    let mut line = Vec::new(alloc);
    let mut seeking = Seeking::new();
    let sought = seek(
        datagram.octets(),
        addresses,
        port,
        &mut seeking,
        &mut line,
        out,
    );
    told_of(sought, seeking.refused, seeking.taken)
}

/// What is told in the end: an address to which a send was refused, if nothing else failed.
fn told_of(
    sought: Result<u32, FindFault>,
    refused: Option<Address>,
    taken: bool,
) -> Result<(), FindFault>
    ensures { result ≡ told_of sought refused taken }
{
    match (sought, refused) {
        (Err(fault), _) => Err(fault),
        (Ok(_), Some(address)) => Err(FindFault::Refused(address)),
        (Ok(_), None) => {
            if taken {
                Ok(())
            } else {
                Err(FindFault::NoAnswer)
            }
        }
    }
}

/// Asks each address, and receives up to a whole wait in which nothing comes.
fn seek<P: Port, W: Write>(
    octets: &[u8],
    addresses: &[Address],
    port: &mut P,
    seeking: &mut Seeking,
    line: &mut Vec<u8>,
    out: &mut W,
) -> Result<u32, FindFault>
    ensures { Seeks (port_rules P.sends P.receives P.receives_within) octets.now addresses.now 4096
        (searching port.old (standing (W.contents out.old) seeking.old)) result
        (searching port.new (standing (W.contents out.new) seeking.new)) }
{
    let left = ask_each(octets, addresses, port, seeking, line, out)?;
    hear(None, 0, left, port, seeking, line, out)
}

/// Sends the octets to each address in order, a turn for each; answers how many datagrams may come
/// still.
#[tactic(auto, unfolding(crate::specs::Finding::Turns))]
fn ask_each<P: Port, W: Write>(
    octets: &[u8],
    addresses: &[Address],
    port: &mut P,
    seeking: &mut Seeking,
    line: &mut Vec<u8>,
    out: &mut W,
) -> Result<u32, FindFault>
    ensures { Turns (port_rules P.sends P.receives P.receives_within) octets.now addresses.now 4096
        (searching port.old (standing (W.contents out.old) seeking.old)) result
        (searching port.new (standing (W.contents out.new) seeking.new)) }
{
    let mut left = RECEIVES;
    for address in addresses {
        let sent = port.send(octets, *address);
        seeking.ask(*address, sent);
        left = settle(left, port, seeking, line, out)?;
    }
    Ok(left)
}

/// Takes what already waits; and where as many addresses are pending as may be, waits for one of
/// them, or else counts them as silent.
fn settle<P: Port, W: Write>(
    limit: u32,
    port: &mut P,
    seeking: &mut Seeking,
    line: &mut Vec<u8>,
    out: &mut W,
) -> Result<u32, FindFault>
    ensures { Settles (port_rules P.sends P.receives P.receives_within) limit
        (searching port.old (standing (W.contents out.old) seeking.old)) result
        (searching port.new (standing (W.contents out.new) seeking.new)) }
{
    let left = hear(Some(0), 0, limit, port, seeking, line, out)?;
    let rest = hear(
        Some(PATIENCE_MS),
        MOST_PENDING,
        left,
        port,
        seeking,
        line,
        out,
    )?;
    seeking.give_up();
    Ok(rest)
}

/// Receives as long as so many addresses are pending, each time so many milliseconds or as long as
/// the port waits, up to a time in which nothing comes, and so many datagrams at most. Answers how
/// many of them may come still.
#[tactic(auto, unfolding(crate::specs::Hearing::Hears))]
fn hear<P: Port, W: Write>(
    wait: Option<u32>,
    least: usize,
    limit: u32,
    port: &mut P,
    seeking: &mut Seeking,
    line: &mut Vec<u8>,
    out: &mut W,
) -> Result<u32, FindFault>
    ensures { Hears (ReceivesBy (port_rules P.sends P.receives P.receives_within) wait) least limit
        (searching port.old (standing (W.contents out.old) seeking.old)) result
        (searching port.new (standing (W.contents out.new) seeking.new)) }
{
    for received in 0..limit {
        if seeking.pending.len() < least {
            return Ok(limit - received);
        }
        match receive_by(port, wait) {
            Ok(heard) => {
                take(seeking, line, heard, out)?;
            }
            Err(SocketFault::Timeout) => return Ok(limit - received),
            Err(SocketFault::Failed) => return Err(FindFault::Socket),
        }
    }
    Ok(0)
}

/// Receives, within so many milliseconds, or as long as the port waits.
fn receive_by<P: Port>(port: &mut P, wait: Option<u32>) -> Result<Heard, SocketFault>
    ensures { ReceivesBy (port_rules P.sends P.receives P.receives_within) wait port.old result
        port.new }
{
    match wait {
        Some(wait_ms) => port.receive_within(wait_ms),
        None => port.receive(),
    }
}

/// Shows what came, whose sender is pending no more; whether it announces a device.
fn take<W: Write>(
    seeking: &mut Seeking,
    line: &mut Vec<u8>,
    heard: Heard,
    out: &mut W,
) -> Result<bool, FindFault>
    ensures { Takes heard result (standing (W.contents out.old) seeking.old)
        (standing (W.contents out.new) seeking.new) }
{
    seeking.hear_from(heard.from);
    let shown = show(line, heard, out)?;
    seeking.taken = seeking.taken || shown;
    Ok(shown)
}

/// Prints the line of the device that a datagram announces; whether it announces one.
fn show<W: Write>(line: &mut Vec<u8>, heard: Heard, out: &mut W) -> Result<bool, FindFault>
    ensures { Shows (announced_by heard) result (W.contents out.old) (W.contents out.new) }
{
    let Some(said) = announced(&heard) else {
        return Ok(false);
    };
    line.clear();
    if push_device(line, &said).is_err() {
        return Err(FindFault::Memory);
    }
    match print(line.as_slice(), out) {
        Ok(()) => Ok(true),
        Err(_) => Err(FindFault::Write),
    }
}

/// Writes a line, and has the writer pass it on.
fn print<W: Write>(line: &[u8], out: &mut W) -> Result<(), WriteRefused>
    ensures ok { OnOk result (Appends (W.contents out.old) (W.contents out.new) line.now) }
    ensures err { OnErr result (AppendsPart (W.contents out.old) (W.contents out.new) line.now) }
{
    write_text(out, line)?;
    match out.flush() {
        Ok(()) => Ok(()),
        Err(_) => Err(WriteRefused),
    }
}
