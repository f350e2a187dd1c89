//! A request, sent again until it is given up, and the longest one that fits. Which answers are
//! taken, and what comes of each, is in examples/check/asking.talk and strays.talk.

ghost use Rattle.std.specs.Prelude.{IfSome};
ghost use Rattle.bac_link.specs.Requests.{IsSendable};

use bac_apdu::WriteProperty;
use bac_link::{ExchangeFault, Received, Request, Timeout, Transactions, exchange};
use bac_scripted_link::ScriptedLink;
use bac_wire::{ObjectId, Value};

/// A write of one zero to property 85 of Binary Value 1, invoke ID 1.
const WRITE: [u8; 21] = [
    0x81, 0x0a, 0, 0x15, 1, 4, 0, 5, 1, 0x0f, 0x0c, 1, 0x40, 0, 1, 0x19, 0x55, 0x3e, 0x61, 0, 0x3f,
];

/// Its answer.
const REPLY: [u8; 9] = [0x81, 0x0a, 0, 9, 1, 0, 0x20, 1, 0x0f];

/// The write of these octets, as a request.
fn write_of<'a>(octets: &'a [u8]) -> Option<Request<'a>>
    ensures { IfSome result IsSendable }
{
    let object = ObjectId::new(5, 1)?;
    Some(Request::WriteProperty(WriteProperty {
        object,
        property: 85,
        index: None,
        value: Value::Octets(octets),
        priority: None,
    }))
}

/// Whether what is sent for the write of one zero is this write.
fn sends(transactions: &mut Transactions) -> Option<bool> {
    let Some(write) = write_of(&[0]) else {
        return None;
    };
    match transactions.begin(&write) {
        Ok(sent) => Some(sent.octets() == WRITE.as_slice()),
        Err(_) => None,
    }
}

/// Whether what is sent again after a timeout is this write, if anything is.
fn sends_again(transactions: &mut Transactions) -> Option<bool> {
    match transactions.timeout() {
        Timeout::Resend(again) => Some(again.octets() == WRITE.as_slice()),
        Timeout::GaveUp => None,
    }
}

/// The same after each of five timeouts.
fn five_timeouts(transactions: &mut Transactions) -> [Option<bool>; 5] {
    [
        sends_again(transactions),
        sends_again(transactions),
        sends_again(transactions),
        sends_again(transactions),
        sends_again(transactions),
    ]
}

fn ignores_reply(transactions: &mut Transactions) -> bool {
    matches!(transactions.receive(&REPLY), Received::Ignored)
}

/// All of these, one after the other, with three retries.
fn send_until_given_up() -> (Option<bool>, [Option<bool>; 5], bool) {
    let mut transactions = Transactions::new(3);
    let first = sends(&mut transactions);
    let again = five_timeouts(&mut transactions);
    (first, again, ignores_reply(&mut transactions))
}

#[test]
fn a_request_is_sent_again_until_it_is_given_up(rt: HostRuntime) {
    let again = [Some(true), Some(true), Some(true), None, None];
    assert_eq!(rt; send_until_given_up(), (Some(true), again, true));
}

/// How many octets are sent for the write of these, or none where the write is refused.
fn sent_for(transactions: &mut Transactions, octets: &[u8]) -> Option<Option<usize>> {
    let Some(write) = write_of(octets) else {
        return None;
    };
    match transactions.begin(&write) {
        Ok(sent) => Some(Some(sent.octets().len())),
        Err(_) => Some(None),
    }
}

/// Whether an exchange of the write of these is too long, and how many asks of it were lost.
fn exchanged(transactions: &mut Transactions, octets: &[u8]) -> Option<(bool, u64)> {
    let Some(write) = write_of(octets) else {
        return None;
    };
    let mut link = ScriptedLink::new(&[&REPLY]);
    let result = exchange(&mut link, transactions, &write);
    let is_too_long = matches!(result, Err(ExchangeFault::TooLong));
    Some((is_too_long, link.failures))
}

/// How many octets are sent for the writes of 1459 zeros and of 1460, and how an exchange of the
/// longer one ends.
fn send_longest() -> ([Option<Option<usize>>; 2], Option<(bool, u64)>) {
    let zeros = [0; 1460];
    let mut transactions = Transactions::new(0);
    let fits = sent_for(&mut transactions, &zeros[1..]);
    let long = sent_for(&mut transactions, &zeros);
    ([fits, long], exchanged(&mut transactions, &zeros))
}

#[test]
fn a_request_of_1476_octets_fits(rt: HostRuntime) {
    // 4 of the frame, 2 of the header, and the APDU
    let sent = [Some(Some(1482)), Some(None)];
    assert_eq!(rt; send_longest(), (sent, Some((true, 0))));
}
