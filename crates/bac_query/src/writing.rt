//! WriteProperty (clause 15.9) and what is printed of its answer.

ghost use Rattle.bac_link.specs.Path.{towards};
ghost use Rattle.bac_link.specs.Requests.{next_invoke, IsSendable};
ghost use Rattle.bac_query.specs.Reading.{next_way, printing};
ghost use Rattle.bac_query.specs.Writing.{PrintsDone, WritesOver, WritesProperty};

use crate::fault::QueryFault;
use crate::reading::print;
use bac_link::{LogLink, Request, Transactions, exchange};
use std::io::Write;

/// Sends a WriteProperty, and prints `written` if the device has done it.
pub fn write_property<L: LogLink, W: Write>(
    link: &mut L,
    transactions: &mut Transactions,
    asked: &Request,
    out: &mut W,
) -> Result<(), QueryFault>
    requires { IsSendable asked.now }
    ensures printed { WritesProperty (towards transactions.old.route)
        (next_invoke transactions.old.invoke) asked.now result (W.contents out.old)
        (W.contents out.new) }
    // Over any link it is asked once, and as often again as the retries say; what is printed came
    // over the link.
    ensures asked { WritesOver L.asks (next_way transactions.old) asked.now
        (printing link.old (W.contents out.old)) result (printing link.new (W.contents out.new)) }
{
    match exchange(link, transactions, asked) {
        Ok(_) => print_done(out),
        Err(fault) => Err(QueryFault::Exchange(fault)),
    }
}

fn print_done<W: Write>(out: &mut W) -> Result<(), QueryFault>
    ensures { PrintsDone result (W.contents out.old) (W.contents out.new) }
{
    print(b"written\n", out)
}
