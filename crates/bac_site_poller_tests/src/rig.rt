//! A site that is driven over simulated devices.

use crate::question::{Question, abort, error, identifier, question_in, reply};
use bac_archive::Put;
use bac_drive::{Machine, Next};
use bac_ports::{Heard, SocketFault};
use bac_site_poller::SitePoller;
use bac_wire::{Address, Datagram};
use std::alloc::{AllocError, Global};
use std::collections::VecDeque;

/// Who it is, of a device that is asked.
const IDENTIFIER: u8 = 75;

/// The records of a log.
const BUFFER: u8 = 131;

/// The host whose devices don't answer.
pub(crate) const SILENT: u8 = 2;

/// That whose devices answer from another port.
pub(crate) const MOVED: u8 = 4;

/// That whose devices refuse all that they are asked, and send no I-Am.
pub(crate) const REFUSING: u8 = 5;

/// From this log on none is answered for.
pub(crate) const MUTE: u8 = 100;

/// An answer, and when it comes.
#[derive(Drop)]
struct Answer {
    from: Address,
    datagram: Option<Datagram>,
    at: u64,
}

/// A site, and what was done of it.
#[derive(Drop)]
pub(crate) struct Rig {
    site: SitePoller,
    answers: VecDeque<Answer>,
    /// The replies to requests for records, in hexadecimal digits; an Abort behind them.
    pub records: VecDeque<&'static str>,
    /// How long a device takes over a request, and whether it takes the next one only then.
    pub delay: u64,
    pub is_slow: bool,
    /// Whether the answer to the last request comes first.
    pub is_reversed: bool,
    /// When a slow one has answered all.
    ready: u64,
    /// How many requests waited for their answer at once, at most.
    pub most: usize,
    /// To which hosts was sent.
    pub sends: Vec<u8>,
    pub printed: Vec<u8>,
    pub puts: Vec<Put>,
    pub ms: u64,
}

/// The instance of the device that has a request: that of its host, or of the router's its address.
fn number_of(question: Question, host: u8) -> u8 {
    let [_, _, address] = question.place;
    if address == 0 { host } else { address }
}

impl Rig {
    /// Nothing was done. Devices answer at once.
    pub fn new(alloc: Global, site: SitePoller) -> Rig {
        Rig {
            site,
            answers: VecDeque::new(alloc),
            records: VecDeque::new(alloc),
            delay: 0,
            is_slow: false,
            is_reversed: false,
            ready: 0,
            most: 0,
            sends: Vec::new(alloc),
            printed: Vec::new(alloc),
            puts: Vec::new(alloc),
            ms: 0,
        }
    }

    /// The status that the site leaves, so far.
    pub fn status(&self) -> u8 {
        self.site.status().code()
    }

    /// When a request that comes now is answered.
    fn answered_at(&mut self) -> u64 {
        if !self.is_slow {
            return self.ms.saturating_add(self.delay);
        }
        self.ready = self.ready.max(self.ms).saturating_add(self.delay);
        self.ready
    }

    /// What a device answers: who it is, the records of a log, or an Error.
    fn answer_of(&mut self, alloc: Global, question: Question, host: u8) -> Option<Datagram> {
        if host == REFUSING {
            return error(question);
        }
        match question.property {
            IDENTIFIER => identifier(question, number_of(question, host)),
            BUFFER => match self.records.pop_front() {
                Some(digits) => reply(alloc, digits, question),
                None => abort(question),
            },
            _ => error(question),
        }
    }

    /// A device has a request.
    fn ask(&mut self, alloc: Global, question: Question, to: Address) -> Result<(), AllocError> {
        let host = to[3];
        if host == SILENT || (question.is_log && question.instance >= MUTE) {
            return Ok(());
        }
        let mut from = to;
        if host == MOVED {
            from[5] = 0xc1;
        }
        let at = self.answered_at();
        let datagram = self.answer_of(alloc, question, host);
        self.answers.push_back(Answer { from, datagram, at })?;
        self.most = self.most.max(self.answers.len());
        Ok(())
    }

    /// A datagram is sent.
    fn send(&mut self, alloc: Global, octets: &[u8], to: Address) -> Result<(), AllocError> {
        self.sends.push(to[3])?;
        match question_in(octets) {
            Some(question) => self.ask(alloc, question, to),
            None => Ok(()),
        }
    }

    /// The next answer, if it comes by then.
    fn next_answer(&mut self, until: u64) -> Result<Option<Answer>, AllocError> {
        if self.is_reversed {
            return Ok(self.answers.pop_back());
        }
        match self.answers.pop_front() {
            Some(answer) => {
                if answer.at <= until {
                    return Ok(Some(answer));
                }
                self.answers.push_front(answer)?;
                Ok(None)
            }
            None => Ok(None),
        }
    }

    /// A datagram is waited for.
    fn wait(&mut self, within: u32) -> Result<(), AllocError> {
        let until = self.ms.saturating_add(u64::from(within));
        match self.next_answer(until)? {
            Some(answer) => {
                let Answer { from, datagram, at } = answer;
                self.ms = self.ms.max(at);
                self.site.hear(Ok(Heard { from, datagram }));
            }
            None => {
                self.ms = until;
                self.site.hear(Err(SocketFault::Timeout));
            }
        }
        Ok(())
    }

    /// A line is told.
    fn print(&mut self, line: &[u8]) -> Result<(), AllocError> {
        self.printed.extend_from_slice(line)
    }

    /// Rows are put.
    fn keep(&mut self, puts: Vec<Put>) -> Result<(), AllocError> {
        let mut puts = puts;
        self.puts.append(&mut puts)
    }

    /// Does one thing: whether the site has ended.
    fn take(&mut self, alloc: Global, next: Next) -> Result<bool, AllocError> {
        match next {
            Next::Send(datagram, to) => self.send(alloc, datagram.octets(), to)?,
            Next::Wait(within) => self.wait(within)?,
            Next::Read => self.site.read(self.ms),
            Next::Keep(puts) => self.keep(puts)?,
            Next::Print(line) => self.print(line.as_slice())?,
            Next::Warn(line) => self.print(line.as_slice())?,
            Next::End => return Ok(true),
        }
        Ok(false)
    }

    /// Does one thing that the site wants: whether it has ended.
    fn step(&mut self, alloc: Global) -> Result<bool, AllocError> {
        match self.site.next(alloc) {
            Ok(next) => self.take(alloc, next),
            Err(error) => Err(error),
        }
    }

    /// Drives the site: whether it has ended.
    pub fn drive(&mut self, alloc: Global) -> Result<bool, AllocError> {
        for _ in 0..2000 {
            if self.step(alloc)? {
                return Ok(true);
            }
        }
        Ok(false)
    }
}
