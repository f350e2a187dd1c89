//! What answers make of a poll.

use crate::fault::Fault;
use crate::text::{asked, counted, turned};
use crate::words::{maybe_number, restart, word};
use bac_poll::{LogPoll, Turn};
use bac_wire::Datagram;
use std::alloc::Global;
use std::str::SplitWhitespace;

/// The answer to a question: `reply OCTETS`, `count N`, `revision N` or `restart STAMP`; or
/// `fewer`: it can't be given, since the device can't send so many records. `brief OCTETS` is a
/// reply, too, of which only is told how many records are kept (bench/poll_cost.py).
pub(crate) fn after(
    alloc: Global,
    call: &str,
    words: &mut SplitWhitespace,
    poll: &mut LogPoll,
) -> Result<String, Fault> {
    if call == "fewer" {
        poll.too_many();
        return asked(alloc, poll);
    }
    let turn = taken(alloc, call, words, poll)?;
    if call == "brief" {
        return counted(alloc, &turn);
    }
    turned(alloc, poll, turn)
}

fn taken(
    alloc: Global,
    call: &str,
    words: &mut SplitWhitespace,
    poll: &mut LogPoll,
) -> Result<Turn, Fault> {
    Ok(match call {
        "reply" | "brief" => poll.take(alloc, &datagram(alloc, words)?)?,
        "count" => poll.weigh(alloc, maybe_number(words)?)?,
        "revision" => poll.hear_revision(alloc, maybe_number(words)?)?,
        "restart" => {
            let (restart, moment) = restart(alloc, words)?;
            poll.hear_restart(alloc, restart, moment)?
        }
        _ => return Err(Fault::BadLine),
    })
}

fn datagram(alloc: Global, words: &mut SplitWhitespace) -> Result<Datagram, Fault> {
    let Ok(octets) = hex::decode(alloc, word(words)?) else {
        return Err(Fault::BadLine);
    };
    match Datagram::of(octets.as_slice()) {
        Some(datagram) => Ok(datagram),
        None => Err(Fault::BadLine),
    }
}
