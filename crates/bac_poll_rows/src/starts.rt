//! Where polls begin.

use crate::fault::Fault;
use crate::words::{kept, maybe_number, number, stamp, told};
use bac_poll::{LogPoll, Standing};
use bac_walk::Count;
use bac_wire::ObjectId;
use std::alloc::Global;
use std::str::SplitWhitespace;

fn object(kind: u16, instance: u32) -> Result<ObjectId, Fault> {
    match ObjectId::new(kind, instance) {
        Some(object) => Ok(object),
        None => Err(Fault::BadLine),
    }
}

/// A log that stands there, and what its device told before: NEXT NEWEST EARLIER EARLIEST STAMP,
/// RESTART REVISION on record and RESTART REVISION now.
pub(crate) fn behind(alloc: Global, words: &mut SplitWhitespace) -> Result<LogPoll, Fault> {
    let at = Standing {
        next: number(words)?,
        newest: kept(alloc, words)?,
        earlier: kept(alloc, words)?,
        earliest: kept(alloc, words)?,
        stamp: stamp(words)?,
        word: told(alloc, words)?,
    };
    let now = told(alloc, words)?;
    match LogPoll::behind(alloc, object(20, 1)?, object(8, 7)?, Count::most(), at, now) {
        Some(poll) => Ok(poll),
        None => Err(Fault::BadLine),
    }
}

/// A first run: BEGINS by the count of a run before, RESTART REVISION on record and RESTART
/// REVISION now.
pub(crate) fn starting(alloc: Global, words: &mut SplitWhitespace) -> Result<LogPoll, Fault> {
    let begins = maybe_number(words)?;
    let on_record = told(alloc, words)?;
    let now = told(alloc, words)?;
    let log = object(20, 1)?;
    let device = object(8, 7)?;
    match LogPoll::starting(alloc, log, device, Count::most(), begins, on_record, now) {
        Some(poll) => Ok(poll),
        None => Err(Fault::BadLine),
    }
}
