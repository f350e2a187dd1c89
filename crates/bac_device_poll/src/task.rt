//! The trend logs of a device that are polled one after the other.

ghost use Rattle.std.specs.Prelude.{◌≡◌, IfOk, IfSome, IsSome, ◌↔◌};
ghost use Rattle.bac_poll.specs.State.{told_as};
ghost use Rattle.bac_device_poll.specs.State.{LogAs, begin_as, begun};

use bac_apdu::object_type::TREND_LOG;
use bac_poll::{LogPoll, Standing, Told};
use bac_walk::Count;
use bac_wire::ObjectId;
use std::alloc::Global;
use std::marker::Model;

/// From where a log is polled.
#[derive(Drop)]
pub enum Begin {
    /// Its rows stand there.
    Behind(Standing),
    /// Nothing of it is kept; a run before that ended behind its count may have put its beginning
    /// on record, and the word of its device.
    Starting(Option<u32>, Told),
}

/// A trend log that is polled in its turn.
#[derive(Drop)]
pub struct LogTask {
    log: ObjectId,
    begin: Begin,
}

impl Model for LogTask {
    ghost use Rattle.std.specs.Prelude.{◌≡◌};
    ghost use Rattle.bac_device_poll.specs.State.{LogAs, begin_as};

    ghost Value = { LogAs };

    ghost view = { λ t. record { log = t.log; begin = begin_as t.begin } };

    ghost invariant = { λ t. t.log.kind ≡ 20 };
}

impl LogTask {
    /// `None` if the object isn't a trend log.
    pub fn new(log: ObjectId, begin: Begin) -> Option<LogTask>
        ensures some { IfSome result (λ t. t ≡ record { log = log; begin = begin_as begin }) }
        ensures is_some { IsSome result ↔ log.kind ≡ 20 }
    {
        if log.kind() == TREND_LOG {
            Some(LogTask { log, begin })
        } else {
            None
        }
    }

    /// The log.
    pub fn log(&self) -> ObjectId
        ensures { result ≡ self.now.log }
    {
        self.log
    }

    /// Its poll: its device told this before. It may have so many replies with records.
    pub(crate) fn poll(
        self,
        alloc: Global,
        device: ObjectId,
        many: Count,
        told: Told,
        left: Option<u32>,
    ) -> Polled
        ensures { result ≡ record {
          log = self.log;
          poll = begun self.log device many (told_as told) self.begin;
          left = left;
        } }
    {
        let LogTask { log, begin } = self;
        let poll = match begin {
            Begin::Behind(at) => LogPoll::behind(alloc, log, device, many, at, told),
            Begin::Starting(begins, word) => {
                LogPoll::starting(alloc, log, device, many, begins, word, told)
            }
        };
        match poll {
            Some(poll) => Polled { log, poll, left },
            None => unreachable!(),
        }
    }
}

/// The log that is polled now.
#[derive(Drop)]
pub struct Polled {
    pub log: ObjectId,
    pub poll: LogPoll,
    /// How many more of its replies may have records in this run, if not as many as come.
    pub left: Option<u32>,
}
