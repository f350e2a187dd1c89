//! The Object_List of a device: which trend logs it has.

ghost use Rattle.std.specs.Prelude.{◌≡◌, ◌++◌, [], IfOk, OnOk, map, option_map};
ghost use Rattle.std.specs.List.{All};
ghost use Rattle.bac_device_poll.specs.Listing.{after_count, after_element, after_objects};
ghost use Rattle.bac_device_poll.specs.Listing.{is_known, is_polled, list_fault, listed, lists};
ghost use Rattle.bac_device_poll.specs.Listing.{new_among, new_log, unlisted};
ghost use Rattle.bac_device_poll.specs.Turns.{asks, turned};
ghost use Rattle.bac_device_poll.specs.declared.stage.Stage.TheVariants.{Count};

use crate::poll::DevicePoll;
use crate::stage::Stage;
use crate::task::{Begin, LogTask};
use crate::turn::{Turn, none, only};
use bac_answers::{
    Entry, added, is_among, is_object, is_too_long, may_differ, others_in, push_others,
};
use bac_apdu::object_type::TREND_LOG;
use bac_link::Verdict;
use bac_poll::Told;
use bac_walk::WalkFault;
use bac_wire::ObjectId;
use std::alloc::{AllocError, Global};
use std::mem::replace;

// Whether it is a log of these, which are polled in their turn.
fn is_polled(logs: &[LogTask], object: ObjectId) -> bool
    ensures { result ≡ is_polled object logs.now }
{
    for task in logs {
        if is_object(object, task.log()) {
            return true;
        }
    }
    false
}

// Whether a log is on record.
fn is_known(logs: &[LogTask], stopped: &[ObjectId], object: ObjectId) -> bool
    ensures { result ≡ is_known logs.now stopped.now object }
{
    is_polled(logs, object) || is_among(stopped, object)
}

// The trend logs among objects that aren't on record.
fn new_among(
    alloc: Global,
    logs: &[LogTask],
    stopped: &[ObjectId],
    objects: &[ObjectId],
) -> Result<Vec<ObjectId>, AllocError>
    ensures new { IfOk result (λ found. found.items ≡ new_among logs.now stopped.now objects.now) }
    ensures kinds { IfOk result (λ found. All (λ log. log.kind ≡ 20) found.items) }
{
    let mut found = Vec::new(alloc);
    for object in objects {
        if object.kind() == TREND_LOG
            && !(is_known(logs, stopped, *object) || is_among(found.as_slice(), *object))
        {
            found.push(*object)?;
        }
    }
    Ok(found)
}

// Puts new logs behind those that are polled in their turn.
fn push_new(alloc: Global, tasks: &mut Vec<LogTask>, logs: &[ObjectId]) -> Result<(), AllocError>
    requires { All (λ log. log.kind ≡ 20) logs.now }
    ensures { OnOk result (tasks.new.items ≡ tasks.old.items ++ map new_log logs.now) }
{
    for log in logs {
        match LogTask::new(*log, Begin::Starting(None, Told::nothing(alloc))) {
            Some(task) => tasks.push(task)?,
            None => unreachable!(),
        }
    }
    Ok(())
}

// Why a list isn't told by an answer.
fn list_fault(verdict: Verdict) -> WalkFault
    ensures { result ≡ list_fault verdict }
{
    match verdict {
        Verdict::Ack => WalkFault::BadReply,
        Verdict::Refused(refusal) => WalkFault::Refused(refusal),
        Verdict::BadReply => WalkFault::BadReply,
    }
}

impl DevicePoll {
    /// Its list is asked for, if it may be another one.
    pub(crate) fn ask_list(
        &mut self,
        alloc: Global,
        entries: Vec<Entry>,
    ) -> Result<Turn, AllocError>
        ensures { IfOk result (λ turn. turned self.new turn ≡ lists self.old entries.items) }
    {
        if self.whole && may_differ(self.revision, self.told.revision) {
            self.stage = Stage::Objects;
            return Ok(Turn::asks(entries));
        }
        self.ask_names(alloc, entries)
    }

    // Its list has these objects.
    fn hear_list(&mut self, alloc: Global, objects: &[ObjectId]) -> Result<Turn, AllocError>
        ensures { IfOk result (λ turn. turned self.new turn ≡ listed self.old objects.now) }
    {
        let (logs, stopped) = (self.logs.as_slice(), self.stopped.as_slice());
        let new = new_among(alloc, logs, stopped, objects)?;
        let mut entries = added(alloc, new.as_slice())?;
        push_others(&mut entries, self.others, others_in(objects))?;
        push_new(alloc, &mut self.logs, new.as_slice())?;
        self.read = true;
        self.objects = Vec::new(alloc);
        self.unnamed = new;
        self.ask_names(alloc, entries)
    }

    /// Its list isn't told, for this reason: its logs are those on record.
    pub(crate) fn miss_list(&mut self, alloc: Global, why: WalkFault) -> Result<Turn, AllocError>
        ensures { IfOk result (λ turn. turned self.new turn ≡ unlisted self.old why) }
    {
        let entries = only(alloc, Entry::Unlisted(why))?;
        self.objects = Vec::new(alloc);
        self.ask_names(alloc, entries)
    }

    /// It is asked for by index.
    pub(crate) fn ask_count(&mut self, alloc: Global) -> Turn
        ensures { turned self.new result ≡ asks (record self.old { stage = Count }) [] }
    {
        self.stage = Stage::Count;
        Turn::asks(none(alloc))
    }

    /// Takes its list, if it tells it whole; or that it is too long for one answer.
    pub(crate) fn hear_objects(
        &mut self,
        alloc: Global,
        verdict: Verdict,
        objects: Option<Vec<ObjectId>>,
    ) -> Result<Turn, AllocError>
        ensures { IfOk result (λ turn. turned self.new turn
            ≡ after_objects self.old verdict (option_map (λ v. v.items) objects)) }
    {
        match objects {
            Some(objects) => self.hear_list(alloc, objects.as_slice()),
            None => {
                if is_too_long(verdict) {
                    return Ok(self.ask_count(alloc));
                }
                self.miss_list(alloc, list_fault(verdict))
            }
        }
    }

    /// Takes how many elements it has, if it tells that.
    pub(crate) fn hear_count(
        &mut self,
        alloc: Global,
        verdict: Verdict,
        count: Option<u32>,
    ) -> Result<Turn, AllocError>
        ensures { IfOk result (λ turn. turned self.new turn ≡ after_count self.old verdict count) }
    {
        match count {
            Some(count) => {
                if count == 0 {
                    return self.hear_list(alloc, &[]);
                }
                self.objects = Vec::new(alloc);
                self.stage = Stage::Element(1, count);
                Ok(Turn::asks(none(alloc)))
            }
            None => self.miss_list(alloc, list_fault(verdict)),
        }
    }

    // Its list has these objects, element by element.
    fn hear_elements(&mut self, alloc: Global) -> Result<Turn, AllocError>
        ensures { IfOk result (λ turn. turned self.new turn ≡ listed self.old self.old.objects) }
    {
        let objects = replace(&mut self.objects, Vec::new(alloc));
        self.hear_list(alloc, objects.as_slice())
    }

    /// Takes an element of so many, if it tells it.
    pub(crate) fn hear_element(
        &mut self,
        alloc: Global,
        index: u32,
        count: u32,
        verdict: Verdict,
        object: Option<ObjectId>,
    ) -> Result<Turn, AllocError>
        ensures { IfOk result (λ turn. turned self.new turn
            ≡ after_element self.old index count verdict object) }
    {
        match object {
            Some(object) => {
                self.objects.push(object)?;
                if count <= index {
                    return self.hear_elements(alloc);
                }
                self.stage = Stage::Element(index + 1, count);
                Ok(Turn::asks(none(alloc)))
            }
            None => self.miss_list(alloc, list_fault(verdict)),
        }
    }
}
