//! How far a walk of a trend log came, and the line that says so.

ghost use Rattle.std.specs.Prelude.{◌≡◌, None, IfOk};
ghost use Rattle.bac_query.specs.Fetching.{PrintsEnd};
ghost use Rattle.bac_form.specs.declared.form.Form.TheVariants.{Lines};

use crate::ends::push_end;
use crate::fault::QueryFault;
use crate::reading::print;
use bac_walk::{ReplyFlaw, Why};
use std::io::Write;

/// How far a walk came, and why it ended.
#[derive(Clone, Copy)]
pub struct Fetched {
    pub why: Why,
    /// The sequence number that comes next.
    pub next: u32,
    /// What is wrong with a bad reply.
    pub flaw: Option<ReplyFlaw>,
    /// The walk is caught up, and yet the last reply that brought records said that more is there.
    pub said_more: bool,
}

/// Prints the line of a walk's end, in the memory of another text.
pub(crate) fn end<W: Write>(
    text: &mut Vec<u8>,
    why: Why,
    next: u32,
    said_more: bool,
    out: &mut W,
) -> Result<Fetched, QueryFault>
    ensures prints { PrintsEnd Lines why next result (W.contents out.old) (W.contents out.new) }
    ensures flaw { IfOk result (λ fetched. fetched.flaw ≡ None) }
    ensures said_more { IfOk result (λ fetched. fetched.said_more ≡ said_more) }
{
    text.clear();
    if push_end(text, why, next).is_err() {
        return Err(QueryFault::Memory);
    }
    print(text, out)?;
    Ok(Fetched {
        why,
        next,
        flaw: None,
        said_more,
    })
}

/// How far a walk came, of whose end no line is printed.
pub(crate) fn unsaid(why: Why, next: u32, said_more: bool) -> Fetched
    ensures { result ≡ record { why = why; next = next; flaw = None; said_more = said_more } }
{
    Fetched {
        why,
        next,
        flaw: None,
        said_more,
    }
}
