//! Whether a device said that more is there.

ghost use Rattle.std.specs.Prelude.{◌≡◌};
ghost use Rattle.bac_apdu.specs.Service.ReadRangeAck.{read_range_ack_at};
ghost use Rattle.bac_query.specs.More.{has_more, if_caught_up, more_last, says_more};

use bac_apdu::choice::READ_RANGE;
use bac_apdu::{Apdu, ReadRangeAck};
use bac_link::read_datagram;
use bac_walk::{Ended, Why};
use bac_wire::Datagram;

/// Whether the ACK with these parameters has more-items set, the third of its result flags.
fn has_more(parameters: &[u8]) -> bool
    ensures { result ≡ has_more (read_range_ack_at parameters.now) }
{
    match ReadRangeAck::read(parameters) {
        Some(ack) => ack.flags / 0x20 % 2 == 1,
        None => false,
    }
}

/// Whether a datagram is an ACK of ReadRange that says so.
fn says_more(datagram: &[u8]) -> bool
    ensures { result ≡ says_more datagram.now }
{
    match read_datagram(datagram) {
        Some(
            Apdu::Complex {
                segmented,
                service,
                parameters,
                ..
            },
        ) => {
            if segmented {
                return false;
            }
            if service != READ_RANGE {
                return false;
            }
            has_more(parameters)
        }
        _ => false,
    }
}

/// What the last reply with records said, after a step with this end and this last datagram.
pub(crate) fn more_last(was: bool, ended: Ended, last: &Option<Datagram>) -> bool
    ensures { result ≡ more_last was ended last.now }
{
    match ended {
        Ended::CaughtUp | Ended::Fault(_) => was,
        Ended::StepLimit | Ended::Stopped => match last {
            Some(datagram) => says_more(datagram.octets()),
            None => was,
        },
    }
}

/// The same of a walk that is caught up; of any other nothing.
pub(crate) fn if_caught_up(why: Why, said: bool) -> bool
    ensures { result ≡ if_caught_up why said }
{
    match why {
        Why::CaughtUp => said,
        Why::StepLimit | Why::Fault(_) | Why::Memory => false,
    }
}
