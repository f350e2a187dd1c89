//! What a device brings beside the records of its logs is put, or told.

ghost use Rattle.std.specs.Prelude.{◌≡◌, IfOk, OnOk, Some, false, true};
ghost use Rattle.bac_device_poller.specs.Entries.{added_as, adding, failing, knowing, log_in};
ghost use Rattle.bac_device_poller.specs.Entries.{new_log, putting_device, renaming, telling};
ghost use Rattle.bac_device_poller.specs.Entries.{telling_known, telling_unlisted, with_entries};
ghost use Rattle.bac_device_poller.specs.Entries.{with_entry, without};
ghost use Rattle.bac_device_poller.specs.Ids.{free_id};
ghost use Rattle.bac_device_poller.specs.Naming.{offset_of};
ghost use Rattle.bac_device_poller.specs.Telling.{another_line, full_line, known_now_line};
ghost use Rattle.bac_device_poller.specs.Telling.{log_called};
ghost use Rattle.bac_device_poller.specs.Telling.{not_asked_line, others_line, rejected_line};
ghost use Rattle.bac_device_poller.specs.Telling.{untold_line};
ghost use Rattle.bac_device_poller.specs.declared.status.Status.TheVariants.{File, NoReply};

use crate::ending::Ending;
use crate::log_record::LogRecord;
use crate::naming::offset_of;
use crate::rows::Rows;
use crate::status::{Status, status_of};
use crate::telling::{
    alone_line, another_line, full_line, known_now_line, log_called, new_line, not_asked_line,
    others_line, rejected_line, unlisted_line, unlisted_reason, untold_line,
};
use crate::texts::text_in;
use bac_archive::{LogRow, Put};
use bac_device_poll::{Entry, Naming, NoRoute, Offset, Others, Who};
use bac_poll::PollEnd;
use bac_row_ids::Place;
use bac_walk::WalkFault;
use bac_wire::ObjectId;
use std::alloc::{AllocError, Global};

impl Rows {
    // The device is known by this from now on.
    fn know(&mut self, alloc: Global, who: &Who) -> Result<(), AllocError>
        ensures { OnOk result (self.new ≡ knowing self.old who.now) }
    {
        match who {
            Who::Device(device) => self.device.instance = Some(device.instance()),
            Who::Name(name) => self.device.name = text_in(alloc, name.octets())?,
            Who::Address => {}
        }
        self.put_device(alloc)
    }

    // It is told where that is its address alone.
    fn tell_known(&mut self, alloc: Global, who: &Who) -> Result<(), AllocError>
        ensures { OnOk result (self.new ≡ telling_known self.old who.now) }
    {
        match who {
            Who::Device(_) => Ok(()),
            Who::Name(_) => Ok(()),
            Who::Address => {
                let line = alone_line(alloc, self.called.as_slice())?;
                self.tell(false, line)
            }
        }
    }

    // It is new, and known by this.
    fn know_first(&mut self, alloc: Global, who: &Who) -> Result<(), AllocError>
        ensures { OnOk result (self.new ≡ telling_known (knowing self.old who.now) who.now) }
    {
        self.know(alloc, who)?;
        self.tell_known(alloc, who)
    }

    // It tells more of itself than before.
    fn know_now(&mut self, alloc: Global, who: &Who) -> Result<(), AllocError>
        ensures { OnOk result (self.new ≡ telling (knowing self.old who.now) true
            (known_now_line self.old.called who.now)) }
    {
        let line = known_now_line(alloc, self.called.as_slice(), who)?;
        self.know(alloc, who)?;
        self.tell(true, line)
    }

    // It didn't tell its Object_List.
    fn tell_unlisted(&mut self, alloc: Global, why: WalkFault) -> Result<(), AllocError>
        ensures { OnOk result (self.new ≡ telling_unlisted self.old why) }
    {
        let line = unlisted_line(alloc, self.called.as_slice(), why)?;
        let reason = unlisted_reason(alloc, self.called.as_slice(), why)?;
        self.fail(status_of(Ending::Poll(PollEnd::Fault(why))), line)?;
        self.tell_any(reason)
    }

    // Its clock.
    fn set_offset(&mut self, alloc: Global, offset: Option<Offset>) -> Result<(), AllocError>
        ensures { OnOk result (self.new ≡ putting_device (record self.old
            { device = record self.old.device { offset = offset_of offset } })) }
    {
        self.device.offset = offset_of(offset);
        self.put_device(alloc)
    }

    // The Database_Revision at which its list and its logs' names were read.
    fn set_revision(&mut self, alloc: Global, revision: u32) -> Result<(), AllocError>
        ensures { OnOk result (self.new ≡ putting_device (record self.old
            { device = record self.old.device { revision = Some revision } })) }
    {
        self.device.revision = Some(revision);
        self.put_device(alloc)
    }

    // Another device answers.
    fn tell_another(&mut self, alloc: Global, who: &Who) -> Result<(), AllocError>
        ensures { OnOk result (self.new ≡ telling self.old false
            (another_line self.old.called who.now self.old.device.instance)) }
    {
        let line = another_line(alloc, self.called.as_slice(), who, self.device.instance)?;
        self.tell(false, line)
    }

    // It doesn't tell that it is the one on record.
    fn tell_untold(&mut self, alloc: Global) -> Result<(), AllocError>
        ensures { OnOk result (self.new ≡ telling self.old false
            (untold_line self.old.called self.old.device.instance)) }
    {
        let line = untold_line(alloc, self.called.as_slice(), self.device.instance)?;
        self.tell(false, line)
    }

    // The router that it is behind has no route to its network.
    fn tell_rejected(&mut self, alloc: Global, reject: NoRoute) -> Result<(), AllocError>
        ensures { OnOk result (self.new ≡ telling self.old false
            (rejected_line self.old.called reject)) }
    {
        let line = rejected_line(alloc, self.called.as_slice(), reject)?;
        self.tell(false, line)
    }

    // It has objects whose records aren't kept.
    fn tell_others(&mut self, alloc: Global, others: Others) -> Result<(), AllocError>
        ensures { OnOk result (self.new ≡ telling self.old false
            (others_line self.old.called others)) }
    {
        let line = others_line(alloc, self.called.as_slice(), others)?;
        self.tell(false, line)
    }

    // How lines call a log of it.
    fn called(&self, alloc: Global, log: ObjectId) -> Result<Vec<u8>, AllocError>
        ensures { IfOk result (λ text. text.items ≡ log_called self.now.called log) }
    {
        log_called(alloc, self.called.as_slice(), log)
    }

    // A log of it isn't asked.
    fn tell_not_asked(&mut self, alloc: Global, log: ObjectId) -> Result<(), AllocError>
        ensures { OnOk result (self.new ≡ failing self.old NoReply
            (not_asked_line (log_called self.old.called log))) }
    {
        let called = self.called(alloc, log)?;
        let line = not_asked_line(alloc, called.as_slice())?;
        self.fail(Status::NoReply, line)
    }

    // A log of which nothing is known yet.
    fn new_log(&self, alloc: Global, id: u16, log: ObjectId) -> Result<LogRecord, AllocError>
        ensures { IfOk result (λ held. held ≡ new_log self.now id log) }
    {
        let called = self.called(alloc, log)?;
        Ok(LogRecord {
            row: LogRow {
                id,
                device: self.device.id,
                instance: log.instance(),
                name: None,
                source: None,
                units: None,
                description: None,
                restart: None,
                revision: None,
                stopped: false,
            },
            restart: Vec::new(alloc),
            revision: None,
            place: Place::new(id, 0),
            next: 1,
            called,
        })
    }

    // Its row is new.
    fn put_new(&mut self, alloc: Global, log: LogRecord) -> Result<(), AllocError>
        ensures { OnOk result (self.new ≡ adding self.old log) }
    {
        let line = new_line(alloc, log.called.as_slice())?;
        self.tell(true, line)?;
        let row = log.row(alloc)?;
        self.add(log)?;
        self.put(Put::NewLog(row))
    }

    // No id is left for it.
    fn tell_full(&mut self, alloc: Global, log: ObjectId) -> Result<(), AllocError>
        ensures { OnOk result (self.new ≡ failing self.old File
            (full_line (log_called self.old.called log))) }
    {
        let called = self.called(alloc, log)?;
        let line = full_line(alloc, called.as_slice())?;
        self.fail(Status::File, line)
    }

    // A log of it is new.
    fn add_new(&mut self, alloc: Global, log: ObjectId) -> Result<(), AllocError>
        ensures { OnOk result (self.new ≡ added_as (free_id self.old.ids) self.old log) }
    {
        match self.ids.take() {
            Some(id) => {
                let held = self.new_log(alloc, id, log)?;
                self.put_new(alloc, held)
            }
            None => self.tell_full(alloc, log),
        }
    }

    // What a log of it is.
    fn rename(&mut self, alloc: Global, log: ObjectId, naming: &Naming) -> Result<(), AllocError>
        ensures { OnOk result (self.new
            ≡ renaming (log_in log self.old.logs) (without log self.old) naming.now) }
    {
        match self.take(log) {
            Some(held) => {
                let mut held = held;
                held.rename(alloc, naming)?;
                self.put_log(alloc, held)
            }
            None => Ok(()),
        }
    }

    // What is put, or told, of an entry.
    fn bring(&mut self, alloc: Global, entry: &Entry) -> Result<(), AllocError>
        ensures { OnOk result (self.new ≡ with_entry self.old entry.now) }
    {
        match entry {
            Entry::Known(who) => self.know_first(alloc, who),
            Entry::KnownNow(who) => self.know_now(alloc, who),
            Entry::Another(who) => self.tell_another(alloc, who),
            Entry::Untold => self.tell_untold(alloc),
            Entry::Rejected(reject) => self.tell_rejected(alloc, *reject),
            Entry::Clock(offset) => self.set_offset(alloc, *offset),
            Entry::Added(log) => self.add_new(alloc, *log),
            Entry::Unlisted(why) => self.tell_unlisted(alloc, *why),
            Entry::Others(others) => self.tell_others(alloc, *others),
            Entry::Named(log, naming) => self.rename(alloc, *log, naming),
            Entry::Read(revision) => self.set_revision(alloc, *revision),
            Entry::NotAsked(log) => self.tell_not_asked(alloc, *log),
        }
    }

    /// All of them, in their order.
    pub(crate) fn bring_all(&mut self, alloc: Global, entries: &[Entry]) -> Result<(), AllocError>
        ensures { OnOk result (self.new ≡ with_entries self.old entries.now) }
    {
        for entry in entries {
            self.bring(alloc, entry)?;
        }
        Ok(())
    }
}
