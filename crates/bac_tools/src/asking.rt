//! The tools that ask one device.

ghost use Rattle.std.specs.Prelude.{◌≡◌, None, Ok, Err, IfOk, IfErr};
ghost use Rattle.bac_link.specs.Requests.{IsSendable};
ghost use Rattle.bac_wire.specs.View.{view, IsWellFormed};
ghost use Rattle.bac_tools.specs.Given.{value_of};
ghost use Rattle.bac_tools.specs.Asking.{Fetches, Lists, Reads, Writes};
ghost use Rattle.bac_ports.specs.Sockets.{link_over, own_address, socket_rules};
ghost use Rattle.bac_query.specs.Ahead.{errand};
ghost use Rattle.bac_tools.specs.Sockets.{outlets, outside, transactions_with};

use crate::fault::Fault;
use crate::log_end::{ended_as, ending_of, say_more};
use bac_apdu::{ReadProperty, Route};
use bac_command_line::{Asked, Given};
use bac_form::Form;
use bac_link::{Request, Transactions};
use bac_ports::{OpenFault, Sockets, UdpLink};
use bac_query::{Reals, begin_layout, fetch_log_ahead, list_logs, read_property, write_property};
use bac_walk::Walk;
use bac_wire::{Address, ObjectId, Value};
use std::alloc::Global;
use std::io::Write;

/// Any address of this machine, and any free port.
pub(crate) const ANY: Address = [0; 6];

/// A link to the device that is asked, and transactions with it.
#[derive(Drop)]
pub(crate) struct Asking<P> {
    link: UdpLink<P>,
    transactions: Transactions,
}

/// Transactions by a route, or with a device of this network.
fn transactions_by(retries: u8, route: Option<Route>) -> Transactions
    ensures { result
        ≡ record { retries = retries; route = route; invoke = 0; begun = 0; pending = None } }
{
    match route {
        Some(route) => Transactions::through(retries, route),
        None => Transactions::new(retries),
    }
}

/// Opens a socket to ask the device that the words name, as they say.
fn connect<S: Sockets>(sockets: &mut S, asked: Asked) -> Result<Asking<S::Socket>, Fault>
    ensures ok { IfOk result (λ asking. S.opens sockets.old (own_address asked.local) asked.timeout
        (Ok asking.link.port) sockets.new
        × (asking.link ≡ link_over asked.address asking.link.port)
        × (asking.transactions ≡ transactions_with asked)) }
    ensures err { IfErr result (λ fault. ((why : OpenFault) × (fault ≡ Fault.Unopened why)
        × S.opens sockets.old (own_address asked.local) asked.timeout (Err why) sockets.new)) }
{
    let Asked {
        address,
        local,
        timeout,
        retries,
        route,
    } = asked;
    match sockets.open(local.unwrap_or(ANY), timeout) {
        Ok(port) => Ok(Asking {
            link: UdpLink::new(port, address),
            transactions: transactions_by(retries, route),
        }),
        Err(why) => Err(Fault::Unopened(why)),
    }
}

/// Reads a property, and prints its values.
pub(crate) fn rp<S: Sockets, O: Write>(
    sockets: &mut S,
    alloc: Global,
    asked: Asked,
    question: ReadProperty,
    reals: Reals,
    output: &mut O,
) -> Result<u8, Fault>
    ensures { Reads
        (socket_rules S.opens S.closes S.Socket.sends S.Socket.receives S.Socket.receives_within)
        asked question reals (outside sockets.old (O.contents output.old)) result
        (outside sockets.new (O.contents output.new)) }
{
    let address = asked.address;
    let Asking {
        mut link,
        mut transactions,
    } = connect(sockets, asked)?;
    let answered = read_property(alloc, &mut link, &mut transactions, question, reals, output);
    sockets.close(link.into_port());
    match answered {
        Ok(()) => Ok(0),
        Err(fault) => Err(Fault::of_query(address, fault)),
    }
}

/// Writes a property, and prints that it was done.
pub(crate) fn wp<S: Sockets, O: Write>(
    sockets: &mut S,
    asked: Asked,
    question: &Request,
    output: &mut O,
) -> Result<u8, Fault>
    requires { IsSendable question.now }
    ensures { Writes
        (socket_rules S.opens S.closes S.Socket.sends S.Socket.receives S.Socket.receives_within)
        asked question.now (outside sockets.old (O.contents output.old)) result
        (outside sockets.new (O.contents output.new)) }
{
    let address = asked.address;
    let Asking {
        mut link,
        mut transactions,
    } = connect(sockets, asked)?;
    let answered = write_property(&mut link, &mut transactions, question, output);
    sockets.close(link.into_port());
    match answered {
        Ok(()) => Ok(0),
        Err(fault) => Err(Fault::of_query(address, fault)),
    }
}

/// What a log is asked for, and how it is printed.
#[derive(Drop)]
pub(crate) struct LogAsking {
    pub walk: Walk,
    pub steps: u32,
    pub layout: Form,
}

/// Walks a log, and prints what it brings. If it is caught up, and yet the last reply with records
/// said that more is there, that goes to the errors.
pub(crate) fn log<S: Sockets, O: Write, E: Write>(
    sockets: &mut S,
    alloc: Global,
    asked: Asked,
    asking: LogAsking,
    output: &mut O,
    errors: &mut E,
) -> Result<u8, Fault>
    ensures fetches { Fetches
        (socket_rules S.opens S.closes S.Socket.sends S.Socket.receives S.Socket.receives_within)
        asked (errand asking.layout asking.walk asking.steps)
        (outlets sockets.old (O.contents output.old) (E.contents errors.old)) result
        (outlets sockets.new (O.contents output.new) (E.contents errors.new)) }
    ensures quiet { IfErr result (λ fault. E.contents errors.new ≡ E.contents errors.old) }
{
    let address = asked.address;
    let Asking {
        mut link,
        mut transactions,
    } = connect(sockets, asked)?;
    let LogAsking {
        walk,
        steps,
        layout,
    } = asking;
    if let Err(fault) = begin_layout(alloc, layout, output) {
        sockets.close(link.into_port());
        return Err(Fault::of_query(address, fault));
    }
    let fetched = fetch_log_ahead(
        alloc,
        &mut link,
        &mut transactions,
        walk,
        steps,
        layout,
        output,
    );
    sockets.close(link.into_port());
    match fetched {
        Ok(fetched) => {
            say_more(fetched.said_more, errors);
            let ended = ending_of(address, fetched.why, fetched.flaw);
            ended_as(layout, fetched.why, ended)
        }
        Err(fault) => Err(Fault::of_query(address, fault)),
    }
}

/// Prints what a device's trend logs say of themselves.
pub(crate) fn logs<S: Sockets, O: Write>(
    sockets: &mut S,
    alloc: Global,
    asked: Asked,
    named: &[ObjectId],
    output: &mut O,
) -> Result<u8, Fault>
    ensures { Lists
        (socket_rules S.opens S.closes S.Socket.sends S.Socket.receives S.Socket.receives_within)
        asked named.now (outside sockets.old (O.contents output.old)) result
        (outside sockets.new (O.contents output.new)) }
{
    let address = asked.address;
    let Asking {
        mut link,
        mut transactions,
    } = connect(sockets, asked)?;
    let listed = list_logs(alloc, &mut link, &mut transactions, named, output);
    sockets.close(link.into_port());
    match listed {
        Ok(()) => Ok(0),
        Err(fault) => Err(Fault::of_query(address, fault)),
    }
}

/// The value to write.
pub(crate) fn value_of(given: &Given) -> Value<'_>
    ensures value { view result ≡ value_of given.now }
    ensures well_formed { IsWellFormed result }
{
    match given {
        Given::Null => Value::Null,
        Given::Boolean(value) => Value::Boolean(*value),
        Given::Unsigned(value) => Value::Unsigned(*value),
        Given::Signed(value) => Value::Signed(*value),
        Given::Real4(octets) => Value::Real4(*octets),
        Given::Text(text) => Value::Chars {
            set: 0,
            octets: text.octets(),
        },
        Given::Enumerated(value) => Value::Enumerated(*value),
    }
}
