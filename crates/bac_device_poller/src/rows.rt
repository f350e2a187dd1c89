//! The rows of a device and of its logs, what is to be put of them, and what is to be told.

ghost use Rattle.std.specs.Prelude.{◌≡◌, ◌<◌, [], IfOk, OnOk, IfSome, length, map};
ghost use Rattle.std.specs.Prelude.{option_map, position};
ghost use Rattle.bac_archive.specs.Put.{device_columns};
ghost use Rattle.bac_device_poller.specs.Entries.{failing, fresh_rows, is_log, log_in, logs_beside};
ghost use Rattle.bac_device_poller.specs.Entries.{putting, putting_device, putting_log, raising};
ghost use Rattle.bac_device_poller.specs.Entries.{telling, telling_any, with_log, without};
ghost use Rattle.bac_device_poller.specs.Naming.{answered_at, answered_or};
ghost use Rattle.bac_device_poller.specs.Puts.{put_as};
ghost use Rattle.bac_device_poller.specs.Rows.{columns_of_device, device_as, text_as};

use crate::counts::Counts;
use crate::ids::Ids;
use crate::line::Line;
use crate::log_record::LogRecord;
use crate::naming::moment_text;
use crate::status::Status;
use crate::texts::copied;
use bac_archive::{DeviceRow, Put};
use bac_wire::{ObjectId, Stamp};
use std::alloc::{AllocError, Global};
use std::collections::VecDeque;
use std::marker::Model;
use std::mem::replace;

/// The rows of a device and of its logs, as they stand on record, what is to be put of them, and
/// what is to be told.
#[derive(Drop)]
pub struct Rows {
    pub(crate) device: DeviceRow,
    /// How its lines call it.
    pub(crate) called: Vec<u8>,
    pub(crate) logs: Vec<LogRecord>,
    /// When it answered last in this run.
    pub(crate) answered: Option<Stamp>,
    /// The ids that are free for logs.
    pub(crate) ids: Ids,
    /// What was kept of the log that is polled.
    pub(crate) kept: Counts,
    pub(crate) puts: Vec<Put>,
    pub(crate) lines: VecDeque<Line>,
    /// The greatest so far.
    pub(crate) status: Status,
}

impl Model for Rows {
    ghost use Rattle.std.specs.Prelude.{map};
    ghost use Rattle.bac_device_poller.specs.Entries.{RowsAs};
    ghost use Rattle.bac_device_poller.specs.Puts.{put_as};
    ghost use Rattle.bac_device_poller.specs.Rows.{device_as};

    ghost Value = { RowsAs };

    ghost view = { λ r. record {
      device = device_as r.device;
      called = r.called.items;
      logs = r.logs.items;
      answered = r.answered;
      ids = r.ids;
      kept = r.kept;
      puts = map put_as r.puts.items;
      lines = r.lines.items;
      status = r.status;
    } };
}

// The row of a device, as it is put.
fn device_row(
    alloc: Global,
    row: &DeviceRow,
    answered: Option<Stamp>,
) -> Result<DeviceRow, AllocError>
    ensures { IfOk result (λ copy. device_columns copy
        ≡ columns_of_device (answered_at answered (device_as row.now))) }
{
    let name = copied(&row.name)?;
    let answered = answered_text(alloc, answered, &row.answered)?;
    Ok(DeviceRow {
        id: row.id,
        address: row.address.clone()?,
        dnet: row.dnet,
        dadr: row.dadr.clone()?,
        instance: row.instance,
        name,
        revision: row.revision,
        whole: row.whole,
        stopped: row.stopped,
        answered,
        offset: row.offset,
    })
}

// When it answered last: in this run, or as it is on record.
fn answered_text(
    alloc: Global,
    answered: Option<Stamp>,
    was: &Option<String>,
) -> Result<Option<String>, AllocError>
    ensures { IfOk result (λ text. text_as text ≡ answered_or answered (text_as was.now)) }
{
    match answered {
        Some(at) => moment_text(alloc, at),
        None => copied(was),
    }
}

// The place of the first log with an instance.
fn place_of(logs: &[LogRecord], log: ObjectId) -> Option<usize>
    ensures value { result ≡ position (is_log log) logs.now }
    ensures bound { IfSome result (λ place. place < length logs.now) }
{
    logs.iter()
        .position(|held| held.row.instance == log.instance())
}

// The first log with an instance, which is taken out.
fn take_log(logs: &mut Vec<LogRecord>, log: ObjectId) -> Option<LogRecord>
    ensures log { result ≡ log_in log logs.old.items }
    ensures others { logs.new.items
        ≡ logs_beside (position (is_log log) logs.old.items) logs.old.items }
{
    match place_of(logs.as_slice(), log) {
        Some(place) => Some(logs.remove(place)),
        None => None,
    }
}

impl Rows {
    /// Those of a device that isn't asked yet.
    pub fn new(alloc: Global, device: DeviceRow, called: Vec<u8>, logs: Vec<LogRecord>) -> Rows
        ensures { result ≡ fresh_rows (device_as device) called.items logs.items }
    {
        Rows {
            device,
            called,
            logs,
            answered: None,
            ids: Ids { next: 0 },
            kept: Counts::none(),
            puts: Vec::new(alloc),
            lines: VecDeque::new(alloc),
            status: Status::Done,
        }
    }

    /// A row is to be put.
    pub(crate) fn put(&mut self, put: Put) -> Result<(), AllocError>
        ensures { OnOk result (self.new ≡ putting self.old (put_as put)) }
    {
        self.puts.push(put)?;
        Ok(())
    }

    /// A line is to be told.
    pub(crate) fn tell(&mut self, good: bool, text: Vec<u8>) -> Result<(), AllocError>
        ensures { OnOk result (self.new ≡ telling self.old good text.items) }
    {
        self.lines.push_back(Line { good, text })?;
        Ok(())
    }

    /// A status is left.
    pub(crate) fn raise(&mut self, status: Status)
        ensures { self.new ≡ raising self.old status }
    {
        self.status = self.status.or_greater(status);
    }

    /// A line of what has this status is to be told.
    pub(crate) fn fail(&mut self, status: Status, text: Vec<u8>) -> Result<(), AllocError>
        ensures { OnOk result (self.new ≡ failing self.old status text.items) }
    {
        self.raise(status);
        self.tell(false, text)
    }

    /// A line goes to the errors, if there is one.
    pub(crate) fn tell_any(&mut self, text: Option<Vec<u8>>) -> Result<(), AllocError>
        ensures { OnOk result (self.new
            ≡ telling_any self.old (option_map (λ t. t.items) text)) }
    {
        match text {
            Some(text) => self.tell(false, text),
            None => Ok(()),
        }
    }

    /// The row of the device is to be put.
    pub(crate) fn put_device(&mut self, alloc: Global) -> Result<(), AllocError>
        ensures { OnOk result (self.new ≡ putting_device self.old) }
    {
        let row = device_row(alloc, &self.device, self.answered)?;
        self.put(Put::Device(row))
    }

    /// One of its logs, which is taken out.
    pub(crate) fn take(&mut self, log: ObjectId) -> Option<LogRecord>
        ensures log { result ≡ log_in log self.old.logs }
        ensures others { self.new ≡ without log self.old }
    {
        take_log(&mut self.logs, log)
    }

    /// One more, or one that was taken out.
    pub(crate) fn add(&mut self, log: LogRecord) -> Result<(), AllocError>
        ensures { OnOk result (self.new ≡ with_log self.old log) }
    {
        self.logs.push(log)?;
        Ok(())
    }

    /// The same, and its row is to be put in place of the one with its id.
    pub(crate) fn put_log(&mut self, alloc: Global, log: LogRecord) -> Result<(), AllocError>
        ensures { OnOk result (self.new ≡ putting_log self.old log) }
    {
        let row = log.row(alloc)?;
        self.add(log)?;
        self.put(Put::Log(row))
    }

    /// What is to be put, which is taken out.
    pub(crate) fn take_puts(&mut self, alloc: Global) -> Vec<Put>
        ensures puts { map put_as result.items ≡ self.old.puts }
        ensures rest { self.new ≡ record self.old { puts = [] } }
    {
        replace(&mut self.puts, Vec::new(alloc))
    }
}
