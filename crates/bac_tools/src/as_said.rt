//! The tools that ask one device, as the words say.

ghost use Rattle.std.specs.Prelude.{◌≡◌, map, IfOk, IfErr};
ghost use Rattle.bac_ports.specs.Sockets.{socket_rules};
ghost use Rattle.bac_tools.specs.Run.{FetchesAsSaid, IsNoLogs, IsNoWalk, IsOutside, ListsAsSaid};
ghost use Rattle.bac_tools.specs.Run.{ReadsAsSaid, WritesAsSaid, priority_of, reals_of};
ghost use Rattle.bac_tools.specs.Run.{trend_log, walk_from};
ghost use Rattle.bac_tools.specs.Sockets.{outlets, outside};

use crate::asking::{LogAsking, log, logs, rp, value_of, wp};
use crate::fault::Fault;
use bac_apdu::object_type::TREND_LOG;
use bac_apdu::{ReadProperty, WriteProperty};
use bac_command_line::{LogListing, LogReading, PropertyReading, PropertyWriting, Word};
use bac_link::Request;
use bac_ports::Sockets;
use bac_query::Reals;
use bac_walk::{Count, Walk};
use bac_wire::ObjectId;
use std::alloc::Global;
use std::io::Write;

/// The object of a question.
fn object(object_type: u16, instance: u32) -> Result<ObjectId, Fault>
    ensures ok { IfOk result (λ id. id ≡ record { kind = object_type; instance = instance }) }
    ensures err { IfErr result
        (λ fault. (fault ≡ Fault.BadValue Word.Instance) × IsOutside object_type instance) }
{
    match ObjectId::new(object_type, instance) {
        Some(object) => Ok(object),
        None => Err(Fault::BadValue(Word::Instance)),
    }
}

/// The walk of a log from a number, or from the oldest record, that asks for so many records at a
/// time.
fn walk(instance: u32, from: Option<u32>, count: u8) -> Result<Walk, Fault>
    ensures ok { IfOk result (λ walk. walk ≡ walk_from instance from count) }
    ensures err { IfErr result (IsNoWalk instance from count) }
{
    let log = object(TREND_LOG, instance)?;
    let Some(count) = Count::new(count) else {
        return Err(Fault::BadValue(Word::Records));
    };
    let walk = match from {
        Some(number) => Walk::from_number(log, number),
        None => Walk::oldest(log),
    };
    match walk {
        Some(walk) => Ok(walk.asking_for(count)),
        None => Err(Fault::BadValue(Word::From)),
    }
}

/// The trend logs with these instances.
fn trend_logs(alloc: Global, instances: &[u32]) -> Result<Vec<ObjectId>, Fault>
    ensures ok { IfOk result (λ logs. logs.items ≡ map trend_log instances.now) }
    ensures err { IfErr result (IsNoLogs instances.now) }
{
    let mut logs = Vec::new(alloc);
    for instance in instances {
        let log = match object(TREND_LOG, *instance) {
            Ok(log) => log,
            Err(fault) => return Err(fault),
        };
        if logs.push(log).is_err() {
            return Err(Fault::Memory);
        }
    }
    Ok(logs)
}

/// The priority to write at, if there is one.
fn priority(number: u8) -> Option<u8>
    ensures { result ≡ priority_of number }
{
    if number == 0 { None } else { Some(number) }
}

/// How REALs and Doubles are shown.
fn reals(numbers: bool) -> Reals
    ensures { result ≡ reals_of numbers }
{
    if numbers {
        Reals::Numbers
    } else {
        Reals::Octets
    }
}

/// Reads the property that the words name, and prints its values.
pub(crate) fn read_as_said<S: Sockets, O: Write>(
    sockets: &mut S,
    alloc: Global,
    said: PropertyReading,
    output: &mut O,
) -> Result<u8, Fault>
    ensures { ReadsAsSaid
        (socket_rules S.opens S.closes S.Socket.sends S.Socket.receives S.Socket.receives_within)
        said (outside sockets.old (O.contents output.old)) result
        (outside sockets.new (O.contents output.new)) }
{
    let question = ReadProperty {
        object: object(said.object_type, said.instance)?,
        property: said.property,
        index: said.index,
    };
    rp(
        sockets,
        alloc,
        said.asked,
        question,
        reals(said.numbers),
        output,
    )
}

/// Writes the property that the words name, and prints that it was done.
pub(crate) fn write_as_said<S: Sockets, O: Write>(
    sockets: &mut S,
    said: PropertyWriting,
    output: &mut O,
) -> Result<u8, Fault>
    ensures { WritesAsSaid
        (socket_rules S.opens S.closes S.Socket.sends S.Socket.receives S.Socket.receives_within)
        said (outside sockets.old (O.contents output.old)) result
        (outside sockets.new (O.contents output.new)) }
{
    let PropertyWriting {
        asked,
        object_type,
        instance,
        property,
        priority: number,
        given,
        index,
        trace: _,
    } = said;
    let question = Request::WriteProperty(WriteProperty {
        object: object(object_type, instance)?,
        property,
        index,
        value: value_of(&given),
        priority: priority(number),
    });
    wp(sockets, asked, &question, output)
}

/// Walks the log that the words name, and prints what it brings. If it is caught up, and yet the
/// last reply with records said that more is there, that goes to the errors.
pub(crate) fn fetch_as_said<S: Sockets, O: Write, E: Write>(
    sockets: &mut S,
    alloc: Global,
    said: LogReading,
    output: &mut O,
    errors: &mut E,
) -> Result<u8, Fault>
    ensures fetches { FetchesAsSaid
        (socket_rules S.opens S.closes S.Socket.sends S.Socket.receives S.Socket.receives_within)
        said (outlets sockets.old (O.contents output.old) (E.contents errors.old)) result
        (outlets sockets.new (O.contents output.new) (E.contents errors.new)) }
    ensures quiet { IfErr result (λ fault. E.contents errors.new ≡ E.contents errors.old) }
{
    let asking = LogAsking {
        walk: walk(said.instance, said.from, said.count)?,
        steps: said.steps,
        layout: said.form,
    };
    log(sockets, alloc, said.asked, asking, output, errors)
}

/// Prints what the trend logs that the words name say of themselves.
pub(crate) fn list_as_said<S: Sockets, O: Write>(
    sockets: &mut S,
    alloc: Global,
    said: LogListing,
    output: &mut O,
) -> Result<u8, Fault>
    ensures { ListsAsSaid
        (socket_rules S.opens S.closes S.Socket.sends S.Socket.receives S.Socket.receives_within)
        said (outside sockets.old (O.contents output.old)) result
        (outside sockets.new (O.contents output.new)) }
{
    let named = trend_logs(alloc, said.instances.as_slice())?;
    logs(sockets, alloc, said.asked, &named, output)
}
