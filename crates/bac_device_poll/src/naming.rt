//! What the logs of a device are: their names, and what they log.

ghost use Rattle.std.specs.Prelude.{◌≡◌, ◌++◌, ◌∷◌, [], IfOk, OnOk, MatchOption, map};
ghost use Rattle.bac_device_poll.specs.Naming.{after_description, after_log_name, after_source};
ghost use Rattle.bac_device_poll.specs.Naming.{after_units, names, names_next, told_read};
ghost use Rattle.bac_device_poll.specs.State.{LogAs};
ghost use Rattle.bac_device_poll.specs.Turns.{turned};

use crate::poll::DevicePoll;
use crate::stage::Stage;
use crate::task::LogTask;
use crate::turn::{Turn, none, only};
use bac_answers::{Entry, Reference, Text, is_changed, push_read, unnamed};
use bac_wire::ObjectId;
use std::alloc::{AllocError, Global};
use std::mem::replace;

// The logs of these tasks.
fn logs_of(alloc: Global, tasks: &[LogTask]) -> Result<Vec<ObjectId>, AllocError>
    ensures { IfOk result (λ logs. logs.items ≡ map (λ (t : LogAs). t.log) tasks.now) }
{
    let mut logs = Vec::new(alloc);
    for task in tasks {
        logs.push(task.log())?;
    }
    Ok(logs)
}

// The first of these, which is taken out.
fn first_of(logs: &mut Vec<ObjectId>) -> Option<ObjectId>
    ensures { MatchOption result ((logs.old.items ≡ []) × (logs.new.items ≡ []))
        (λ log. logs.old.items ≡ log ∷ logs.new.items) }
{
    if logs.is_empty() {
        return None;
    }
    Some(logs.remove(0))
}

impl DevicePoll {
    // Puts on record at which revision it was read, if it was.
    fn push_told_read(&self, entries: &mut Vec<Entry>) -> Result<(), AllocError>
        ensures { OnOk result (entries.new.items ≡ entries.old.items ++ told_read self.now) }
    {
        if self.read {
            return push_read(entries, self.revision, self.told.revision);
        }
        Ok(())
    }

    // The next log is asked what it is; behind the last they are polled.
    fn ask_next_name(&mut self, alloc: Global, entries: Vec<Entry>) -> Result<Turn, AllocError>
        ensures { IfOk result (λ turn. turned self.new turn ≡ names_next self.old entries.items) }
    {
        match first_of(&mut self.unnamed) {
            Some(log) => {
                self.stage = Stage::LogName(log);
                self.naming = unnamed();
                Ok(Turn::asks(entries))
            }
            None => {
                let mut entries = entries;
                self.push_told_read(&mut entries)?;
                self.begin_next(alloc, entries)
            }
        }
    }

    /// Logs that are new are asked what they are; all of them, if the device was changed.
    pub(crate) fn ask_names(
        &mut self,
        alloc: Global,
        entries: Vec<Entry>,
    ) -> Result<Turn, AllocError>
        ensures { IfOk result (λ turn. turned self.new turn ≡ names self.old entries.items) }
    {
        if is_changed(self.revision, self.told.revision) {
            self.unnamed = logs_of(alloc, self.logs.as_slice())?;
        }
        self.ask_next_name(alloc, entries)
    }

    /// Takes the Object_Name of a log, if it is told.
    pub(crate) fn hear_log_name(&mut self, alloc: Global, log: ObjectId, name: Option<Text>) -> Turn
        ensures { turned self.new result ≡ after_log_name self.old log name }
    {
        self.naming.name = name;
        self.stage = Stage::Source(log);
        Turn::asks(none(alloc))
    }

    /// Takes what it logs, if it is told.
    pub(crate) fn hear_source(
        &mut self,
        alloc: Global,
        log: ObjectId,
        source: Option<Reference>,
    ) -> Turn
        ensures { turned self.new result ≡ after_source self.old log source }
    {
        self.naming.source = source;
        self.stage = Stage::Units(log);
        Turn::asks(none(alloc))
    }

    /// Takes the Units of that, if they are told.
    pub(crate) fn hear_units(&mut self, alloc: Global, log: ObjectId, units: Option<u32>) -> Turn
        ensures { turned self.new result ≡ after_units self.old log units }
    {
        self.naming.units = units;
        self.stage = Stage::Description(log);
        Turn::asks(none(alloc))
    }

    /// Takes its Description, if it is told: the log is on record so.
    pub(crate) fn hear_description(
        &mut self,
        alloc: Global,
        log: ObjectId,
        description: Option<Text>,
    ) -> Result<Turn, AllocError>
        ensures { IfOk result (λ turn. turned self.new turn
            ≡ after_description self.old log description) }
    {
        self.naming.description = description;
        let naming = replace(&mut self.naming, unnamed());
        let entries = only(alloc, Entry::Named(log, naming))?;
        self.ask_next_name(alloc, entries)
    }
}
