//! The newest record of a log.

ghost use Rattle.std.specs.Prelude.{◌≡◌, ◌≢◌, IfErr, IfOk, None, OnOk};
ghost use Rattle.sqlite.specs.State.{HasCleanDisk, IsUnchanged, Survives};
ghost use Rattle.sqlite.specs.Held.{state};
ghost use Rattle.bac_archive.specs.Ask.{IsLeft};
ghost use Rattle.bac_archive.specs.Items.{IsReadable};
ghost use Rattle.bac_archive.specs.Schema.{HasArchive, OverArchive};
ghost use Rattle.bac_kept.specs.Faults.{FailsOnItems};
ghost use Rattle.bac_kept.specs.Records.{FailsBy, IsCopyOf, IsFirstIn, IsReadAs, all_of};

use crate::fault::Fault;
use bac_archive::{Item, Range, id_of, items_in, read_item};
use sqlite::{Alter, Connection, Error, ErrorCode, Row};
use std::alloc::{AllocError, Global};

/// A record of a log.
#[derive(Drop)]
pub(crate) struct Record {
    pub(crate) epoch: u16,
    pub(crate) number: u32,
    pub(crate) stamp: Vec<u8>,
    pub(crate) value: Option<f64>,
    pub(crate) datum: Vec<u8>,
    pub(crate) flags: Vec<u8>,
}

/// The same octets.
fn copied(alloc: Global, octets: &[u8]) -> Result<Vec<u8>, AllocError>
    ensures { IfOk result (λ copy. copy.items ≡ octets.now) }
{
    let mut copy = Vec::new(alloc);
    copy.extend_from_slice(octets)?;
    Ok(copy)
}

impl Record {
    /// The record of an item.
    fn of(alloc: Global, item: &Item<'_>) -> Result<Record, AllocError>
        ensures { IfOk result (IsCopyOf item.now) }
    {
        let stamp = copied(alloc, item.stamp)?;
        let datum = copied(alloc, item.datum)?;
        let flags = copied(alloc, item.flags)?;
        Ok(Record {
            epoch: item.epoch,
            number: item.number,
            stamp,
            value: item.value,
            datum,
            flags,
        })
    }

    /// The item that it is.
    pub(crate) fn item(&self) -> Item<'_>
        ensures copy { IsCopyOf result self.now }
        ensures record { result.last ≡ None }
    {
        Item {
            epoch: self.epoch,
            number: self.number,
            last: None,
            stamp: self.stamp.as_slice(),
            value: self.value,
            datum: self.datum.as_slice(),
            flags: self.flags.as_slice(),
        }
    }
}

/// All items of a log, the newest first.
fn all_of(log: u16) -> Range<'static>
    ensures { result ≡ all_of log }
{
    Range::Newest {
        first: id_of(log, 0, 0),
        last: id_of(log, 32_767, 4_294_967_295),
    }
}

/// The record of a row; of a gap's there is none.
fn read_record(alloc: Global, row: &Row) -> Result<Option<Record>, Fault>
    ensures read { IfOk result (IsReadAs row.now) }
    ensures fault { IfErr result (FailsBy (λ e.
        e ≢ Error.SqliteFailure ErrorCode.OutOfMemory → IsReadable row.now → ⊥)) }
{
    let item = match read_item(row) {
        Ok(item) => item,
        Err(error) => return Err(Fault::Database(error)),
    };
    if item.last.is_some() {
        return Ok(None);
    }
    match Record::of(alloc, &item) {
        Ok(record) => Ok(Some(record)),
        Err(_) => Err(Fault::Memory),
    }
}

/// The first record of a range of items, if there is one.
fn first_record<A: Alter>(
    alloc: Global,
    conn: &mut Connection<A>,
    range: Range<'_>,
) -> Result<Option<Record>, Fault>
    ensures found { OverArchive (state A.Store conn.old) (state A.Store conn.new)
        (IfOk result (IsFirstIn range.entry ((state A.Store conn.old).now.trees 5))) }
    ensures same { OverArchive (state A.Store conn.old) (state A.Store conn.new)
        (OnOk result (IsUnchanged (state A.Store conn.old) (state A.Store conn.new))) }
    ensures left { OverArchive (state A.Store conn.old) (state A.Store conn.new)
        (IsLeft (state A.Store conn.old) (state A.Store conn.new)) }
    ensures crash { HasArchive (state A.Store conn.old).now.schema
        → Survives (state A.Store conn.old) (state A.Store conn.new) (λ _. ⊥) }
    ensures clean { HasCleanDisk (state A.Store conn.new) → HasCleanDisk (state A.Store conn.old) }
    ensures fault { OverArchive (state A.Store conn.old) (state A.Store conn.new)
        (IfErr result (FailsBy (FailsOnItems A.Store range.entry conn.old conn.new))) }
{
    let mut rows = match items_in(conn, range) {
        Ok(rows) => rows,
        Err(error) => return Err(Fault::Database(error)),
    };
    'rows: for read in 0..u64::MAX {
        let row = match rows.next() {
            Ok(Some(row)) => row,
            Ok(None) => return Ok(None),
            Err(error) => return Err(Fault::Database(error)),
        };
        match read_record(alloc, row)? {
            Some(record) => return Ok(Some(record)),
            None => {}
        }
    }
    Err(Fault::Database(Error::SqliteFailure(ErrorCode::OperationInterrupted)))
}

/// The newest record of a log, if it has one.
pub(crate) fn newest_record<A: Alter>(
    alloc: Global,
    conn: &mut Connection<A>,
    log: u16,
) -> Result<Option<Record>, Fault>
    ensures found { OverArchive (state A.Store conn.old) (state A.Store conn.new)
        (IfOk result (IsFirstIn (all_of log) ((state A.Store conn.old).now.trees 5))) }
    ensures same { OverArchive (state A.Store conn.old) (state A.Store conn.new)
        (OnOk result (IsUnchanged (state A.Store conn.old) (state A.Store conn.new))) }
    ensures left { OverArchive (state A.Store conn.old) (state A.Store conn.new)
        (IsLeft (state A.Store conn.old) (state A.Store conn.new)) }
    ensures crash { HasArchive (state A.Store conn.old).now.schema
        → Survives (state A.Store conn.old) (state A.Store conn.new) (λ _. ⊥) }
    ensures clean { HasCleanDisk (state A.Store conn.new) → HasCleanDisk (state A.Store conn.old) }
    ensures fault { OverArchive (state A.Store conn.old) (state A.Store conn.new)
        (IfErr result (FailsBy (FailsOnItems A.Store (all_of log) conn.old conn.new))) }
{
    first_record(alloc, conn, all_of(log))
}
