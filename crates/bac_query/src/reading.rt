//! ReadProperty (clause 15.5) and what is printed of its answer.

ghost use Rattle.bac_link.specs.Datagrams.{apdu_in};
ghost use Rattle.bac_link.specs.Path.{towards};
ghost use Rattle.bac_link.specs.Requests.{next_invoke};
ghost use Rattle.bac_query.specs.Reading.{ReadsOver, ReadsProperty, PrintsValues, Prints, next_way};
ghost use Rattle.bac_query.specs.Reading.{printing};
ghost use Rattle.bac_query.specs.Answers.{values_in};

use crate::answers::values_in;
use crate::fault::QueryFault;
use crate::reals::Reals;
use crate::values::push_values;
use bac_apdu::ReadProperty;
use bac_link::{ExchangeFault, LogLink, Request, Transactions, exchange};
use bac_print::write_text;
use bac_wire::Datagram;
use std::alloc::Global;
use std::io::Write;

/// Reads a property, and prints its values, a line each, with one write: REALs and Doubles as their
/// octets, or the finite ones as numbers. If they aren't all values after application tags, the
/// line is `raw(HEX)`; if there are none, nothing is printed. That the ACK has the object and the
/// property that were asked for isn't looked at: a device answers for instance 4194303 with its
/// own.
pub fn read_property<L: LogLink, W: Write>(
    alloc: Global,
    link: &mut L,
    transactions: &mut Transactions,
    asked: ReadProperty,
    reals: Reals,
    out: &mut W,
) -> Result<(), QueryFault>
    ensures printed { ReadsProperty (towards transactions.old.route)
        (next_invoke transactions.old.invoke) asked reals result (W.contents out.old)
        (W.contents out.new) }
    // Over any link it is asked once, and as often again as the retries say; what is printed came
    // over the link.
    ensures asked { ReadsOver L.asks (next_way transactions.old) asked reals
        (printing link.old (W.contents out.old)) result (printing link.new (W.contents out.new)) }
{
    let request = Request::ReadProperty(asked);
    match exchange(link, transactions, &request) {
        Ok(datagram) => print_values(alloc, &datagram, reals, out),
        Err(fault) => Err(QueryFault::Exchange(fault)),
    }
}

/// Prints the values of an ACK.
fn print_values<W: Write>(
    alloc: Global,
    answer: &Datagram,
    reals: Reals,
    out: &mut W,
) -> Result<(), QueryFault>
    ensures { PrintsValues reals (values_in (apdu_in answer.now)) result (W.contents out.old)
        (W.contents out.new) }
{
    let Some(values) = values_in(answer) else {
        return Err(QueryFault::Exchange(ExchangeFault::BadReply));
    };
    let mut text = Vec::new(alloc);
    if push_values(alloc, &mut text, values, reals).is_err() {
        return Err(QueryFault::Memory);
    }
    print(&text, out)
}

/// Prints a text with one write, as far as the output takes it at once, and flushes the output.
pub(crate) fn print<W: Write>(text: &[u8], out: &mut W) -> Result<(), QueryFault>
    ensures { Prints text.now result (W.contents out.old) (W.contents out.new) }
{
    if write_text(out, text).is_err() || out.flush().is_err() {
        return Err(QueryFault::Write);
    }
    Ok(())
}
