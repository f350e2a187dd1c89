//! What a device poller begins with of the logs of its device.

ghost use Rattle.std.specs.Prelude.{◌≡◌, ◌<◌, IfErr, IfOk, filter, map};
ghost use Rattle.std.specs.List.{AllZip};
ghost use Rattle.std.specs.Option.{option_map};
ghost use Rattle.bac_archive.specs.Put.{beginning_columns, log_columns};
ghost use Rattle.bac_device_poll.specs.State.{begin_as};
ghost use Rattle.bac_device_poller.specs.Puts.{place_as};
ghost use Rattle.bac_device_poller.specs.Rows.{text_as};
ghost use Rattle.bac_device_poller.specs.Telling.{log_called};
ghost use Rattle.bac_resume.specs.Resumed.{GoesOn};
ghost use Rattle.bac_resume.specs.Stands.{is_full};
ghost use Rattle.bac_plan.specs.Logs.{IsFaultAmong, IsLogFault, IsTask, begin_by, epoch_of};
ghost use Rattle.bac_plan.specs.Logs.{is_asked, is_stopped, next_from, place_of, record_of};
ghost use Rattle.bac_plan.specs.Logs.{restart_of, told_at, trend_log};

use crate::fault::PlanFault;
use crate::texts::copied;
use bac_apdu::object_type::TREND_LOG;
use bac_archive::{BeginningRow, LogRow};
use bac_device_poll::{Begin, LogTask};
use bac_device_poller::LogRecord;
use bac_poll::Told;
use bac_print::push_number;
use bac_resume::{LogRows, Resumed, go_on, is_full, next_of};
use bac_row_ids::Place;
use bac_wire::ObjectId;
use std::alloc::{AllocError, Global};

/// How many epochs a log has.
const EPOCHS: u32 = 32_768;

// The object of a log.
fn object_of(log: &LogRow) -> Result<ObjectId, PlanFault>
    ensures ok { IfOk result (λ object. object ≡ trend_log log.now) }
    ensures err { IfErr result (IsLogFault log.now) }
{
    match ObjectId::new(TREND_LOG, log.instance) {
        Some(object) => Ok(object),
        None => Err(PlanFault::Log(log.id)),
    }
}

// Where the poll of a log goes on, by what an archive tells of each log.
fn resumed(alloc: Global, log: &LogRow, told: &[LogRows]) -> Result<Resumed, AllocError>
    ensures { IfOk result (GoesOn (log_columns log.now) (told_at told.now log.now.id)) }
{
    match told.get(usize::from(log.id)) {
        Some(rows) => go_on(alloc, log, rows),
        None => Ok(Resumed::Unbegun),
    }
}

// From where it is polled.
fn begin_by(alloc: Global, resumed: Resumed) -> Begin
    ensures { begin_as result ≡ begin_by resumed }
{
    match resumed {
        Resumed::Unbegun => Begin::Starting(None, Told::nothing(alloc)),
        Resumed::Counted(_, number, word) => Begin::Starting(Some(number), word),
        Resumed::Stands(_, at) => Begin::Behind(at),
    }
}

// The log in its turn.
fn task_of(alloc: Global, log: &LogRow, told: &[LogRows]) -> Result<LogTask, PlanFault>
    ensures ok { IfOk result (IsTask told.now log.now) }
    ensures err { IfErr result (IsLogFault log.now) }
{
    let object = object_of(log)?;
    let begin = begin_by(alloc, resumed(alloc, log, told)?);
    match LogTask::new(object, begin) {
        Some(task) => Ok(task),
        None => unreachable!(),
    }
}

/// Those of the logs that aren't stopped, in their order.
pub(crate) fn tasks_of(
    alloc: Global,
    logs: &[LogRow],
    told: &[LogRows],
) -> Result<Vec<LogTask>, PlanFault>
    ensures ok { IfOk result (λ tasks.
        AllZip (IsTask told.now) (filter is_asked logs.now) tasks.items) }
    ensures err { IfErr result (IsFaultAmong logs.now) }
{
    let mut tasks = Vec::new(alloc);
    for log in logs {
        if !log.stopped {
            tasks.push(task_of(alloc, log, told)?)?;
        }
    }
    Ok(tasks)
}

/// The objects of those that are.
pub(crate) fn stopped_of(alloc: Global, logs: &[LogRow]) -> Result<Vec<ObjectId>, PlanFault>
    ensures ok { IfOk result (λ objects.
        objects.items ≡ map trend_log (filter is_stopped logs.now)) }
    ensures err { IfErr result (IsFaultAmong logs.now) }
{
    let mut objects = Vec::new(alloc);
    for log in logs {
        if log.stopped {
            objects.push(object_of(log)?)?;
        }
    }
    Ok(objects)
}

// The epoch that begins there; the first, if none does.
fn epoch_of(begins: &Option<BeginningRow>) -> u16
    ensures value { result ≡ epoch_of (option_map beginning_columns begins.now) }
    ensures bound { result < 32768 }
{
    match begins {
        Some(begins) => (begins.id % EPOCHS) as u16,
        None => 0,
    }
}

// The epoch of a log that is the last one on record.
fn epoch_in(told: &[LogRows], log: u16) -> u16
    ensures value { result ≡ epoch_of (told_at told.now log).begins }
    ensures bound { result < 32768 }
{
    match told.get(usize::from(log)) {
        Some(rows) => epoch_of(&rows.begins),
        None => 0,
    }
}

// Whether the last number of that epoch is kept.
fn is_full_in(told: &[LogRows], log: u16) -> bool
    ensures { result ≡ is_full (told_at told.now log).newest }
{
    match told.get(usize::from(log)) {
        Some(rows) => is_full(rows.newest.as_slice()),
        None => false,
    }
}

// Where the next row of its items stands.
fn place_of(log: &LogRow, told: &[LogRows]) -> Place
    ensures { place_as result ≡ place_of told.now log.now }
{
    match Place::new(log.id, epoch_in(told, log.id)) {
        Some(place) => place.filled(is_full_in(told, log.id)),
        None => unreachable!(),
    }
}

// The number that comes next behind these rows.
fn next_from(rows: &LogRows) -> u32
    ensures { result ≡ next_from rows.now.begins rows.now.newest }
{
    match &rows.begins {
        Some(begins) => next_of(begins.number, rows.newest.as_slice()),
        None => 1,
    }
}

// The same of a log.
fn next_in(told: &[LogRows], log: u16) -> u32
    ensures { result ≡ next_from (told_at told.now log).begins (told_at told.now log).newest }
{
    match told.get(usize::from(log)) {
        Some(rows) => next_from(rows),
        None => 1,
    }
}

// The octets of a restart, as it is kept; none, if none is on record.
fn restart_of(alloc: Global, restart: &Option<String>) -> Result<Vec<u8>, AllocError>
    ensures { IfOk result (λ octets. octets.items ≡ restart_of restart.now) }
{
    match restart {
        Some(restart) => Vec::from_slice(alloc, restart.as_bytes()),
        None => Ok(Vec::new(alloc)),
    }
}

// The row of a log again; what it has of the word of its device is left out.
fn row_of(log: &LogRow) -> Result<LogRow, AllocError>
    ensures { IfOk result (λ row. (row.id ≡ log.now.id) × (row.device ≡ log.now.device)
        × (row.instance ≡ log.now.instance) × (row.stopped ≡ log.now.stopped)
        × (text_as row.name ≡ text_as log.now.name)
        × (text_as row.source ≡ text_as log.now.source)
        × (text_as row.units ≡ text_as log.now.units)
        × (text_as row.description ≡ text_as log.now.description)) }
{
    let name = copied(&log.name)?;
    let source = copied(&log.source)?;
    let units = copied(&log.units)?;
    let description = copied(&log.description)?;
    Ok(LogRow {
        id: log.id,
        device: log.device,
        instance: log.instance,
        name,
        source,
        units,
        description,
        restart: None,
        revision: None,
        stopped: log.stopped,
    })
}

// How lines call it, if they call its device so.
fn log_called(alloc: Global, called: &[u8], log: &LogRow) -> Result<Vec<u8>, AllocError>
    ensures { IfOk result (λ text. text.items ≡ log_called called.now (trend_log log.now)) }
{
    let mut text = Vec::new(alloc);
    text.extend_from_slice(called)?;
    text.extend_from_slice(b" ")?;
    push_number(&mut text, u64::from(log.instance))?;
    Ok(text)
}

// The log, as it stands on record.
fn record_of(
    alloc: Global,
    called: &[u8],
    log: &LogRow,
    told: &[LogRows],
) -> Result<LogRecord, AllocError>
    ensures { IfOk result (λ kept. kept ≡ record_of called.now told.now log.now) }
{
    let row = row_of(log)?;
    let restart = restart_of(alloc, &log.restart)?;
    let called = log_called(alloc, called, log)?;
    Ok(LogRecord {
        row,
        restart,
        revision: log.revision,
        place: Some(place_of(log, told)),
        next: next_in(told, log.id),
        called,
    })
}

/// All of them, in their order.
pub(crate) fn records_of(
    alloc: Global,
    called: &[u8],
    logs: &[LogRow],
    told: &[LogRows],
) -> Result<Vec<LogRecord>, AllocError>
    ensures { IfOk result (λ records.
        records.items ≡ map (record_of called.now told.now) logs.now) }
{
    let mut records = Vec::new(alloc);
    for log in logs {
        records.push(record_of(alloc, called, log, told)?)?;
    }
    Ok(records)
}
