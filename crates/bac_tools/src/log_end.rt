//! What the end of a log's walk comes to, beside its line.

ghost use Rattle.std.specs.Prelude.{◌≡◌};
ghost use Rattle.bac_form.specs.declared.form.Form.TheVariants.{Csv};
ghost use Rattle.bac_tools.specs.Asking.{SaysMore};
ghost use Rattle.bac_tools.specs.LogEnds.{ended_as, of_cause, of_why};

use crate::fault::{Fault, walk_status};
use crate::telling::say;
use bac_form::Form;
use bac_walk::{ReplyFlaw, WalkFault, Why};
use bac_wire::Address;
use std::io::Write;

/// The status of a run that ended at its step limit, where nothing printed says so.
const MAY_BE_MORE: u8 = 8;

/// The status of an end, or what there is to say of it.
fn of_cause(address: Address, why: Why) -> Result<u8, Fault>
    ensures { result ≡ of_cause address why }
{
    match why {
        Why::Fault(WalkFault::Lost) => Err(Fault::Silent(address)),
        Why::Fault(WalkFault::Refused(refusal)) => Err(Fault::Declined(refusal)),
        Why::Fault(WalkFault::BadReply) => Ok(walk_status(why)),
        Why::CaughtUp | Why::StepLimit | Why::Memory => Ok(walk_status(why)),
    }
}

/// The same, or what is wrong with the reply that it was.
pub(crate) fn ending_of(address: Address, why: Why, flaw: Option<ReplyFlaw>) -> Result<u8, Fault>
    ensures { result ≡ of_why address why flaw }
{
    match flaw {
        Some(flaw) => Err(Fault::Flawed(flaw)),
        None => of_cause(address, why),
    }
}

/// What an end without a line of its own comes to.
fn unsaid_end(why: Why, ended: Result<u8, Fault>) -> Result<u8, Fault>
    ensures { result ≡ ended_as Csv why ended }
{
    match why {
        Why::StepLimit => Ok(MAY_BE_MORE),
        Why::CaughtUp | Why::Fault(_) | Why::Memory => ended,
    }
}

/// The same in this form: rows of CSV and lines of JSON have no line of the end.
pub(crate) fn ended_as(layout: Form, why: Why, ended: Result<u8, Fault>) -> Result<u8, Fault>
    ensures { result ≡ ended_as layout why ended }
{
    match layout {
        Form::Lines => ended,
        Form::Csv | Form::Json => unsaid_end(why, ended),
    }
}

/// Says of a walk that is caught up that its last reply with records said that more is there.
pub(crate) fn say_more<E: Write>(said_more: bool, errors: &mut E)
    ensures { SaysMore said_more (E.contents errors.old) (E.contents errors.new) }
{
    if said_more {
        say(b"the device announced more records but sent none\n", errors);
    }
}
