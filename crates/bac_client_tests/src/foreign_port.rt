//! The device that isn't ours behind a port that brings datagrams of others too: what is printed of
//! its log is proved from public contracts alone.

ghost use Rattle.std.specs.Prelude.{◌≡◌, IfOk, IfSome};
ghost use Rattle.bac_client_tests.specs.Foreign.{log as log_one};
ghost use Rattle.bac_client_tests.specs.ForeignPort.{IsBrought, IsPut, PrintsHeld};

use crate::foreign_callers::{FROM_9, reply_to};
use bac_form::Form;
use bac_link::Transactions;
use bac_ports::{Heard, Port, SocketFault, UdpLink};
use bac_query::{Fetched, QueryFault, fetch_log_ahead};
use bac_walk::{Walk, Why, honest_is_delivered, transacted_is_brought};
use bac_wire::{Address, Datagram, ObjectId};
use std::alloc::Global;
use std::io::Write;

/// 192.168.1.20:47808
const DEVICE: Address = [192, 168, 1, 20, 0xba, 0xc0];

/// 192.168.1.21:47808
const STRANGER: Address = [192, 168, 1, 21, 0xba, 0xc0];

/// Carries questions to the device. Before each of its answers comes a datagram of another sender
/// that looks like one of them.
#[derive(Drop)]
pub struct ForeignPort {
    question: Datagram,
    is_disturbed: bool,
}

impl Port for ForeignPort {
    ghost sends = { λ old octets to answer new. IsPut octets answer new.question };

    ghost receives = { λ old answer new. IsBrought old.question answer
        × (new.question ≡ old.question) };

    ghost receives_within = { λ old wait answer new. Unit {0} };

    fn send(&mut self, octets: &[u8], _to: Address) -> Result<(), SocketFault> {
        match Datagram::of(octets) {
            Some(question) => {
                self.question = question;
                Ok(())
            }
            None => Err(SocketFault::Failed),
        }
    }

    fn receive(&mut self) -> Result<Heard, SocketFault> {
        self.is_disturbed = !self.is_disturbed;
        if self.is_disturbed {
            return Ok(Heard {
                from: STRANGER,
                datagram: Datagram::of(&FROM_9),
            });
        }
        match reply_to(self.question.octets()) {
            Some(reply) => Ok(Heard {
                from: DEVICE,
                datagram: Some(reply),
            }),
            None => Err(SocketFault::Timeout),
        }
    }

    fn receive_within(&mut self, _wait_ms: u32) -> Result<Heard, SocketFault> {
        Err(SocketFault::Timeout)
    }
}

/// From number 7 on, if no write was refused: the lines of the records that the device's log holds,
/// each once and in order, and nothing else; all of them where it says that there are no more.
pub fn printed_of_another_device<W: Write>(
    alloc: Global,
    port: ForeignPort,
    log: ObjectId,
    retries: u8,
    steps: u32,
    out: &mut W,
) -> Option<Result<Fetched, QueryFault>>
    ensures { IfSome result (λ fetched. IfOk fetched (λ done. log ≡ log_one →
        PrintsHeld done (W.contents out.old) (W.contents out.new))) }
{
    // For the prover alone, both: the laws that the contract follows from.
    honest_is_delivered::<UdpLink<ForeignPort>>();
    transacted_is_brought::<UdpLink<ForeignPort>>();
    let walk = Walk::from_number(log, 7)?;
    let mut transactions = Transactions::new(retries);
    let mut link = UdpLink::new(port, DEVICE);
    Some(fetch_log_ahead(
        alloc,
        &mut link,
        &mut transactions,
        walk,
        steps,
        Form::Lines,
        out,
    ))
}

const PRINTED: &[u8] = b"\
    7 2024-05-06T07:00:00.00 real(41c80000) -\n\
    8 2024-05-06T08:00:00.00 real(41cc0000) 0000\n\
    9 2024-05-06T09:00:00.00 real(41d00000) 0000\n\
    10 2024-05-06T10:00:00.00 real(41d40000) -\n\
    caught up, next 11\n";

fn print_nine_steps(alloc: Global, out: &mut Vec<u8>) -> Option<Result<Fetched, QueryFault>> {
    let log = ObjectId::new(20, 1)?;
    let port = ForeignPort {
        question: Datagram::new(),
        is_disturbed: false,
    };
    printed_of_another_device(alloc, port, log, 0, 9, out)
}

/// Whether fetching ended so, and no reply said that more is there.
fn ended(fetched: Option<Result<Fetched, QueryFault>>, why: Why, next: u32) -> bool {
    match fetched {
        Some(Ok(fetched)) => fetched.why == why && fetched.next == next && !fetched.said_more,
        _ => false,
    }
}

#[test]
fn another_device_is_printed(rt: HostRuntime) {
    let mut text = Vec::new(rt.alloc());
    let fetched = print_nine_steps(rt.alloc(), &mut text);
    assert!(rt; ended(fetched, Why::CaughtUp, 11));
    assert!(rt; text.as_slice() == PRINTED);
}
