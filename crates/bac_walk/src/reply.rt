//! Replies whose records are still octets.
ghost use Rattle.std.proofs.Props.{props};
ghost use Rattle.bac_walk.specs.Spelled.{IsWhole, LiesAt, data_held};

use crate::batch::Gap;
use bac_wire::Datagram;

/// A reply that brings records, kept as octets: the datagram with its ACK, the gap before them, the
/// number of the first, and where the item data start and end, if that is known. It is right as a
/// whole, so each record can be decoded when it is put.
#[derive(Drop)]
pub(crate) struct Reply {
    pub(crate) datagram: Datagram,
    pub(crate) gap: Option<Gap>,
    pub(crate) first: u32,
    pub(crate) place: Option<(usize, usize)>,
    ghost whole: { IsWhole first (data_held datagram) },
    ghost lies: { LiesAt place datagram (data_held datagram) } by { Prim.hlevel props },
}

/// What an ACK means to a walk.
#[derive(Drop)]
pub(crate) enum Verdict<'a> {
    /// It brings records that were asked for, the first of which has this number, as octets.
    Records {
        gap: Option<Gap>,
        first: u32,
        items: &'a [u8],
    },
    /// None came: the oldest records are asked for next.
    AskOldest,
    CaughtUp,
}

/// What an answer brings to a walk.
#[derive(Drop)]
pub(crate) enum Turned {
    Reply(Reply),
    AskOldest,
    CaughtUp,
}

/// What the answers of a step bring.
#[derive(Drop)]
pub(crate) enum Replied {
    Reply(Reply),
    CaughtUp,
}
