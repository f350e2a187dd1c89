//! A poll of one device.

ghost use Rattle.std.specs.Prelude.{◌≡◌, ◌<◌, IfOk, option_copied};
ghost use Rattle.bac_link.specs.Datagrams.{apdu_in};
ghost use Rattle.bac_link.specs.Requests.{IsSendable, IsTooLong};
ghost use Rattle.bac_device_poll.specs.Naming.{subject};
ghost use Rattle.bac_device_poll.specs.Poll.{Answers, IsFit, Takes, asked_of_device, asks_element};
ghost use Rattle.bac_device_poll.specs.Poll.{asks_for, asks_log, fresh, later, verdict_to};
ghost use Rattle.bac_device_poll.specs.Poll.{with_steps};
ghost use Rattle.bac_device_poll.specs.Turns.{turned};

use crate::question::Question;
use crate::stage::Stage;
use crate::task::{LogTask, Polled};
use crate::turn::{Step, Turn, none};
use bac_answers::{
    Naming, Others, Who, device_of, is_busy, itself, moment_in, offset, restart_in, subject,
    told_date, told_device, told_number, told_object, told_objects, told_source, told_text,
    told_time, told_units, unnamed,
};
use bac_apdu::ReadProperty;
use bac_link::{Request, Verdict, judge};
use bac_poll::Told;
use bac_walk::Count;
use bac_wire::{Datagram, ObjectId, Stamp};
use std::alloc::{AllocError, Global};
use std::marker::Model;

/// Object_Identifier (clause 12.1).
const OBJECT_IDENTIFIER: u32 = 75;

/// Object_Name.
const OBJECT_NAME: u32 = 77;

/// Description.
const DESCRIPTION: u32 = 28;

/// Local_Date of a device (clause 12.11).
const LOCAL_DATE: u32 = 56;

/// Local_Time.
const LOCAL_TIME: u32 = 57;

/// Object_List.
const OBJECT_LIST: u32 = 76;

/// Database_Revision.
const DATABASE_REVISION: u32 = 155;

/// Time_Of_Device_Restart.
const TIME_OF_DEVICE_RESTART: u32 = 203;

/// Units of an object with a value (clause 12.2).
const UNITS: u32 = 117;

/// Log_DeviceObjectProperty of a trend log (clause 12.25).
const LOG_DEVICE_OBJECT_PROPERTY: u32 = 132;

/// What is on record of a device.
#[derive(Drop)]
pub struct Known {
    /// By what it is known; none: it is new.
    pub who: Option<Who>,
    /// The Database_Revision at which its list and what its logs are were read.
    pub revision: Option<u32>,
    /// All trend logs of its Object_List are kept.
    pub whole: bool,
    /// How many objects it had whose records aren't kept, as it was told last.
    pub others: Option<Others>,
    /// Logs of it that aren't asked any more.
    pub stopped: Vec<ObjectId>,
}

/// A poll of one device, which contracts see as what is known of it.
#[derive(Drop)]
pub struct DevicePoll {
    pub(crate) stage: Stage,
    pub(crate) who: Option<Who>,
    pub(crate) told: Told,
    pub(crate) revision: Option<u32>,
    pub(crate) whole: bool,
    pub(crate) clock: bool,
    pub(crate) others: Option<Others>,
    pub(crate) stopped: Vec<ObjectId>,
    pub(crate) many: Count,
    pub(crate) retries: u8,
    pub(crate) steps: Option<u32>,
    pub(crate) busy: u8,
    pub(crate) doubt: bool,
    pub(crate) read: bool,
    pub(crate) objects: Vec<ObjectId>,
    pub(crate) unnamed: Vec<ObjectId>,
    pub(crate) naming: Naming,
    pub(crate) polled: Option<Polled>,
    pub(crate) logs: Vec<LogTask>,
}

impl Model for DevicePoll {
    ghost use Rattle.bac_poll.specs.State.{told_as};
    ghost use Rattle.bac_device_poll.specs.State.{DeviceState};

    ghost Value = { DeviceState };

    ghost view = { λ p. record {
      stage = p.stage;
      who = p.who;
      told = told_as p.told;
      revision = p.revision;
      whole = p.whole;
      clock = p.clock;
      others = p.others;
      stopped = p.stopped.items;
      many = p.many;
      retries = p.retries;
      steps = p.steps;
      busy = p.busy;
      doubt = p.doubt;
      read = p.read;
      objects = p.objects.items;
      unnamed = p.unnamed.items;
      naming = p.naming;
      polled = p.polled;
      logs = p.logs.items;
    } };
}

impl DevicePoll {
    /// A poll of a device of which this is on record. Its logs are polled in this order, each asked
    /// for so many records at a time. A request is repeated so many times, also to a device that is
    /// busy. Its clock is asked for, or isn't.
    pub fn new(
        alloc: Global,
        known: Known,
        logs: Vec<LogTask>,
        many: Count,
        retries: u8,
        clock: bool,
    ) -> DevicePoll
        ensures { result ≡ fresh known logs.items many retries clock }
    {
        let Known {
            who,
            revision,
            whole,
            others,
            stopped,
        } = known;
        DevicePoll {
            stage: Stage::Instance,
            who,
            told: Told::nothing(alloc),
            revision,
            whole,
            clock,
            others,
            stopped,
            many,
            retries,
            steps: None,
            busy: 0,
            doubt: false,
            read: !whole,
            objects: Vec::new(alloc),
            unnamed: Vec::new(alloc),
            naming: unnamed(),
            polled: None,
            logs,
        }
    }

    /// The same, each of whose logs ends in this run with its reply of that number that has
    /// records, where 0 stands for 1; the next run goes on behind it. `None`: as many as come.
    pub fn with_steps(self, steps: Option<u32>) -> DevicePoll
        ensures { result ≡ with_steps steps self }
    {
        let mut poll = self;
        poll.steps = match steps {
            Some(most) => Some(most.max(1)),
            None => None,
        };
        poll
    }

    /// What the next answer is for.
    pub fn stage(&self) -> Stage
        ensures { result ≡ self.now.stage }
    {
        self.stage
    }

    /// The log that is polled.
    pub fn polled(&self) -> Option<&Polled>
        ensures { option_copied result ≡ self.now.polled }
    {
        match &self.polled {
            Some(polled) => Some(polled),
            None => None,
        }
    }

    /// Whether its question is sent once, without a repeat: the one before it wasn't answered, or
    /// a log was lost.
    pub fn is_sent_once(&self) -> bool
        ensures { result ≡ self.now.doubt }
    {
        self.doubt
    }

    /// What is asked next. It always fits a request.
    pub fn question(&self) -> Question
        ensures asks { result ≡ asked_of_device self.now }
        ensures fits { IsFit result }
    {
        match self.stage {
            Stage::Instance => property(itself(), OBJECT_IDENTIFIER),
            Stage::IAm => Question::WhoIs,
            Stage::Name => property(itself(), OBJECT_NAME),
            Stage::Restart => property(device_of(&self.who), TIME_OF_DEVICE_RESTART),
            Stage::Revision => property(device_of(&self.who), DATABASE_REVISION),
            Stage::Date => property(device_of(&self.who), LOCAL_DATE),
            Stage::Time(_) => property(device_of(&self.who), LOCAL_TIME),
            Stage::Objects => property(device_of(&self.who), OBJECT_LIST),
            Stage::Count => element(device_of(&self.who), 0),
            Stage::Element(index, _) => element(device_of(&self.who), index),
            Stage::LogName(log) => property(log, OBJECT_NAME),
            Stage::Source(log) => property(log, LOG_DEVICE_OBJECT_PROPERTY),
            Stage::Units(log) => property(self.subject(log), UNITS),
            Stage::Description(log) => property(self.subject(log), DESCRIPTION),
            Stage::Log => self.log_question(),
            Stage::Between => Question::Nothing,
            Stage::Ended => Question::Nothing,
        }
    }

    // The object that tells the units and the description of a log.
    fn subject(&self, log: ObjectId) -> ObjectId
        ensures { result ≡ subject self.now.who log self.now.naming.source }
    {
        subject(&self.who, log, self.naming.source)
    }

    // What the poll of a log asks.
    fn log_question(&self) -> Question
        ensures asks { result ≡ asks_log self.now.polled }
        ensures fits { IsFit result }
    {
        match &self.polled {
            Some(polled) => Question::Confirmed(polled.poll.question()),
            None => Question::Nothing,
        }
    }

    /// What an answer is to its question.
    pub fn judge(&self, datagram: &[u8]) -> Verdict
        ensures { result ≡ verdict_to (asked_of_device self.now) (apdu_in datagram.now) }
    {
        match self.question() {
            Question::Confirmed(request) => {
                let requests = [request];
                judge(&requests[0], datagram)
            }
            Question::WhoIs => Verdict::BadReply,
            Question::Nothing => Verdict::BadReply,
        }
    }

    /// Takes a datagram that answers its question, at this moment of this machine's clock. After
    /// want of memory the poll is of no use.
    pub fn take(
        &mut self,
        alloc: Global,
        datagram: &Datagram,
        now: Stamp,
    ) -> Result<Turn, AllocError>
        ensures { IfOk result (λ turn. Takes self.old datagram.now now (turned self.new turn)) }
    {
        let verdict = self.judge(datagram.octets());
        if is_busy(verdict) && self.busy < self.retries {
            self.busy += 1;
            self.doubt = false;
            return Ok(Turn {
                entries: none(alloc),
                log: None,
                step: Step::AskLater,
            });
        }
        self.busy = 0;
        self.doubt = false;
        self.answer(alloc, verdict, datagram, now)
    }

    // Takes it, by what it is for.
    fn answer(
        &mut self,
        alloc: Global,
        verdict: Verdict,
        datagram: &Datagram,
        now: Stamp,
    ) -> Result<Turn, AllocError>
        ensures { IfOk result (λ turn. Answers self.old self.old.stage verdict datagram.now now
            (turned self.new turn)) }
    {
        match self.stage() {
            Stage::Instance => self.hear_instance(alloc, told_device(verdict, datagram)),
            Stage::IAm => Ok(Turn::asks(none(alloc))),
            Stage::Name => {
                let name = told_text(alloc, verdict, datagram)?;
                self.hear_name(alloc, name)
            }
            Stage::Restart => {
                let restart = restart_in(alloc, verdict, datagram)?;
                let moment = moment_in(verdict, datagram);
                Ok(self.hear_restart(alloc, restart, moment))
            }
            Stage::Revision => self.hear_revision(alloc, told_number(verdict, datagram)),
            Stage::Date => self.hear_date(alloc, told_date(verdict, datagram)),
            Stage::Time(date) => {
                let offset = offset(date, told_time(verdict, datagram), now);
                self.set_clock(alloc, offset)
            }
            Stage::Objects => {
                let objects = told_objects(alloc, verdict, datagram)?;
                self.hear_objects(alloc, verdict, objects)
            }
            Stage::Count => self.hear_count(alloc, verdict, told_number(verdict, datagram)),
            Stage::Element(index, count) => {
                self.hear_element(alloc, index, count, verdict, told_object(verdict, datagram))
            }
            Stage::LogName(log) => {
                let name = told_text(alloc, verdict, datagram)?;
                Ok(self.hear_log_name(alloc, log, name))
            }
            Stage::Source(log) => Ok(self.hear_source(alloc, log, told_source(verdict, datagram))),
            Stage::Units(log) => Ok(self.hear_units(alloc, log, told_units(verdict, datagram))),
            Stage::Description(log) => {
                let text = told_text(alloc, verdict, datagram)?;
                self.hear_description(alloc, log, text)
            }
            Stage::Log => self.hear_log(alloc, verdict, datagram),
            Stage::Between => Ok(Turn::asks(none(alloc))),
            Stage::Ended => Ok(Turn::asks(none(alloc))),
        }
    }
}

// A property of an object, as a question.
fn property(object: ObjectId, property: u32) -> Question<'static>
    ensures asks { result ≡ asks_for object property }
    ensures fits { IsFit result }
{
    Question::Confirmed(Request::ReadProperty(ReadProperty {
        object,
        property,
        index: None,
    }))
}

// An element of an Object_List.
fn element(device: ObjectId, index: u32) -> Question<'static>
    ensures asks { result ≡ asks_element device index }
    ensures fits { IsFit result }
{
    Question::Confirmed(Request::ReadProperty(ReadProperty {
        object: device,
        property: OBJECT_LIST,
        index: Some(index),
    }))
}
