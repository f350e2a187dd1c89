//! Rows are put: all of a batch, or none.

ghost use Rattle.std.specs.Prelude.{◌≡◌, ◌≢◌, ◌≤◌, ◌<◌, [], OnOk, OnErr, IfErr, IsTrue};
ghost use Rattle.std.specs.Prelude.{flat_map, length, take};
ghost use Rattle.sqlite.specs.State.{HasCleanDisk, Survives, KeepsCommit, ExecutesInside};
ghost use Rattle.sqlite.specs.Held.{state};
ghost use Rattle.sqlite.specs.Values.{bound};
ghost use Rattle.bac_archive.specs.Schema.{HasArchive, OverArchive};
ghost use Rattle.bac_archive.specs.Put.{AreAtOnce, FailsToPut, GivesUp, IsPut, Puts};
ghost use Rattle.bac_archive.specs.Put.{given, given_all, given_record, is_record, text_of};
ghost use Rattle.bac_archive.specs.Put.{PutsJoin, PutsKeepVersion, PutsLoseNothing, text_of_all};

use crate::ending::finish;
use crate::row::{Put, beginning_bound, device_bound, item_bound, log_bound, record_values};
use sqlite::{Alter, Connection, Error, ErrorCode, Transaction};
use sqlite_value::value::ValueRef;

/// The statement that puts 32 records.
const MANY: &str = "INSERT INTO items (id, stamp, value, datum, flags) VALUES \
    (?, ?, ?, ?, ?), (?, ?, ?, ?, ?), (?, ?, ?, ?, ?), (?, ?, ?, ?, ?), (?, ?, ?, ?, ?), \
    (?, ?, ?, ?, ?), (?, ?, ?, ?, ?), (?, ?, ?, ?, ?), (?, ?, ?, ?, ?), (?, ?, ?, ?, ?), \
    (?, ?, ?, ?, ?), (?, ?, ?, ?, ?), (?, ?, ?, ?, ?), (?, ?, ?, ?, ?), (?, ?, ?, ?, ?), \
    (?, ?, ?, ?, ?), (?, ?, ?, ?, ?), (?, ?, ?, ?, ?), (?, ?, ?, ?, ?), (?, ?, ?, ?, ?), \
    (?, ?, ?, ?, ?), (?, ?, ?, ?, ?), (?, ?, ?, ?, ?), (?, ?, ?, ?, ?), (?, ?, ?, ?, ?), \
    (?, ?, ?, ?, ?), (?, ?, ?, ?, ?), (?, ?, ?, ?, ?), (?, ?, ?, ?, ?), (?, ?, ?, ?, ?), \
    (?, ?, ?, ?, ?), (?, ?, ?, ?, ?)";

/// The statement that puts a row.
fn text_of(put: &Put) -> &'static str
    ensures { result.now ≡ text_of put.now }
{
    match put {
        Put::NewDevice(_row) => {
            "INSERT INTO devices (id, address, dnet, dadr, instance, name, revision, whole, \
             stopped, answered, offset) VALUES (?1, ?2, ?3, ?4, ?5, ?6, ?7, ?8, ?9, ?10, ?11)"
        }
        Put::Device(_row) => {
            "UPDATE devices SET address = ?2, dnet = ?3, dadr = ?4, instance = ?5, name = ?6, \
             revision = ?7, whole = ?8, stopped = ?9, answered = ?10, offset = ?11 WHERE id = ?1"
        }
        Put::NewLog(_row) => {
            "INSERT INTO logs (id, device, instance, name, source, units, description, restart, \
             revision, stopped) VALUES (?1, ?2, ?3, ?4, ?5, ?6, ?7, ?8, ?9, ?10)"
        }
        Put::Log(_row) => {
            "UPDATE logs SET device = ?2, instance = ?3, name = ?4, source = ?5, units = ?6, \
             description = ?7, restart = ?8, revision = ?9, stopped = ?10 WHERE id = ?1"
        }
        Put::Beginning(_row) => "INSERT INTO beginnings (id, number, why) VALUES (?1, ?2, ?3)",
        Put::Lowered(_row) => {
            "UPDATE beginnings SET number = ?2, why = ?3 WHERE id = ?1 AND why = 'counted'"
        }
        Put::Item(_row) => {
            "INSERT INTO items (id, last, stamp, value, datum, flags) VALUES (?1, ?2, ?3, ?4, ?5, \
             ?6)"
        }
    }
}

/// What is bound in it, and how many values that are.
fn bound_of(put: &Put) -> ([ValueRef<'_>; 11], usize)
    ensures values { bound (take result.1 result.0) ≡ given put.now }
    ensures few { result.1 ≤ 11 }
{
    match put {
        Put::NewDevice(row) | Put::Device(row) => (device_bound(row), 11),
        Put::NewLog(row) | Put::Log(row) => (log_bound(row), 10),
        Put::Beginning(row) | Put::Lowered(row) => (beginning_bound(row), 3),
        Put::Item(row) => (item_bound(row), 6),
    }
}

/// Whether it is a record: an item that has no last number.
fn is_record(put: &Put) -> bool
    ensures { result ≡ is_record put.now }
{
    match put {
        Put::Item(row) => row.last.is_none(),
        Put::NewDevice(_) | Put::Device(_) => false,
        Put::NewLog(_) | Put::Log(_) => false,
        Put::Beginning(_) | Put::Lowered(_) => false,
    }
}

/// How many of these rows, from the first on, one statement puts: 32 records, or one row.
fn at_once(puts: &[Put]) -> usize
    requires { puts.now ≢ [] }
    ensures some { 0 < result }
    ensures among { result ≤ length puts.now }
    ensures so_many { AreAtOnce (take result puts.now) }
{
    for at in 0..32 {
        let Some(put) = puts.get(at) else {
            return 1;
        };
        if !is_record(put) {
            return 1;
        }
    }
    32
}

/// What is bound for a record; of a row of another table nothing.
fn record_or_nulls(put: &Put) -> [ValueRef<'_>; 5]
    ensures { bound result ≡ given_record put.now }
{
    match put {
        Put::Item(row) => record_values(row),
        Put::NewDevice(_) | Put::Device(_) => [ValueRef::Null; 5],
        Put::NewLog(_) | Put::Log(_) => [ValueRef::Null; 5],
        Put::Beginning(_) | Put::Lowered(_) => [ValueRef::Null; 5],
    }
}

/// What is bound for so many records, one after the other.
fn many_bound(these: &[Put]) -> [[ValueRef<'_>; 5]; 32]
    requires { length these.now ≡ 32 }
    ensures { bound (flat_map (λ row. row) result) ≡ flat_map given_record these.now }
{
    let mut rows = [[ValueRef::Null; 5]; 32];
    for at in 0..32 {
        rows[at] = record_or_nulls(&these[at]);
    }
    rows
}

/// Puts one row.
fn put_one<S: Alter>(tx: &mut Transaction<'_, S>, put: &Put) -> Result<usize, Error>
    ensures same_reference { tx.new.conn.ghost_name ≡ tx.old.conn.ghost_name }
    ensures runs { HasCleanDisk (state S.Store tx.new.conn.now)
        → IsTrue (state S.Store tx.old.conn.now).in_transaction
        → ExecutesInside 0 (text_of put.now) (given put.now) (state S.Store tx.old.conn.now)
        (state S.Store tx.new.conn.now) result }
    ensures crash { Survives (state S.Store tx.old.conn.now) (state S.Store tx.new.conn.now)
        (λ _. ⊥) }
{
    let (values, count) = bound_of(put);
    tx.execute(text_of(put), &values[..count])
}

/// Puts rows by one statement.
fn put_these<S: Alter>(tx: &mut Transaction<'_, S>, these: &[Put]) -> Result<usize, Error>
    requires { AreAtOnce these.now }
    ensures same_reference { tx.new.conn.ghost_name ≡ tx.old.conn.ghost_name }
    ensures runs { HasCleanDisk (state S.Store tx.new.conn.now)
        → IsTrue (state S.Store tx.old.conn.now).in_transaction
        → ExecutesInside 0 (text_of_all these.now) (given_all these.now)
        (state S.Store tx.old.conn.now) (state S.Store tx.new.conn.now) result }
    ensures crash { Survives (state S.Store tx.old.conn.now) (state S.Store tx.new.conn.now)
        (λ _. ⊥) }
{
    if these.len() == 1 {
        return put_one(tx, &these[0]);
    }
    tx.execute(MANY, many_bound(these).as_flattened())
}

/// Puts each row in turn.
pub(crate) fn put_each<S: Alter>(tx: &mut Transaction<'_, S>, puts: &[Put]) -> Result<(), Error>
    ensures same_reference { tx.new.conn.ghost_name ≡ tx.old.conn.ghost_name }
    ensures put { HasCleanDisk (state S.Store tx.new.conn.now)
        → IsTrue (state S.Store tx.old.conn.now).in_transaction
        → HasArchive (state S.Store tx.old.conn.now).now.schema
        → OnOk result
        (Puts (state S.Store tx.old.conn.now) (state S.Store tx.new.conn.now) puts.now) }
    ensures cause { HasCleanDisk (state S.Store tx.new.conn.now)
        → IsTrue (state S.Store tx.old.conn.now).in_transaction
        → HasArchive (state S.Store tx.old.conn.now).now.schema
        → IfErr result (GivesUp S.Store tx.old.conn.now tx.new.conn.now puts.now) }
    ensures crash { Survives (state S.Store tx.old.conn.now) (state S.Store tx.new.conn.now)
        (λ _. ⊥) }
    ensures kept { HasCleanDisk (state S.Store tx.new.conn.now)
        → IsTrue (state S.Store tx.old.conn.now).in_transaction
        → HasArchive (state S.Store tx.old.conn.now).now.schema
        → KeepsCommit (state S.Store tx.old.conn.now) (state S.Store tx.new.conn.now) }
{
    let mut behind = puts;
    while !behind.is_empty() {
        let (these, more) = behind.split_at(at_once(behind));
        put_these(tx, these)?;
        behind = more;
    }
    Ok(())
}

/// Puts these rows in one transaction, one after the other: all of them or none, also over a crash.
/// A new one whose id a row has is refused; one in place of a row that isn't there changes nothing,
/// nor does a beginning in place of one that wasn't counted. A transaction that is open already is
/// refused.
pub fn put<S: Alter>(conn: &mut Connection<S>, puts: &[Put]) -> Result<(), Error>
    ensures all { OverArchive (state S.Store conn.old) (state S.Store conn.new)
        (OnOk result (IsPut (state S.Store conn.old).now (state S.Store conn.new).now puts.now
        × ((state S.Store conn.new).committed ≡ (state S.Store conn.new).now))) }
    ensures neither { HasCleanDisk (state S.Store conn.new)
        → IsTrue (state S.Store conn.new).is_open
        → HasArchive (state S.Store conn.old).now.schema
        → OnErr result (((state S.Store conn.new).now ≡ (state S.Store conn.old).now)
        × ((state S.Store conn.new).committed ≡ (state S.Store conn.old).committed)) }
    ensures crash { Survives (state S.Store conn.old) (state S.Store conn.new)
        (λ trees. HasArchive (state S.Store conn.old).now.schema
        → (db : _) × IsPut (state S.Store conn.old).now db puts.now × (trees ≡ db.trees)) }
    // A transaction was open; or the database gave up on one of the rows, or on the commit.
    ensures cause { OverArchive (state S.Store conn.old) (state S.Store conn.new)
        (IfErr result (FailsToPut S.Store conn.old puts.now)) }
    ensures clean { HasCleanDisk (state S.Store conn.new) → HasCleanDisk (state S.Store conn.old) }
{
    if !conn.is_autocommit() {
        return Err(Error::SqliteFailure(ErrorCode::TransactionState));
    }
    let mut tx = conn.transaction();
    let done = put_each(&mut tx, puts);
    finish(tx, done.err())
}

/// Two batches, one after the other, are one. Whatever is put, each item of before is there as it
/// was, and so is each beginning that wasn't counted; each beginning's id stays, and the version.
pub fn puts_are_one()
    ensures join { PutsJoin }
    ensures lose_nothing { PutsLoseNothing }
    ensures keep_version { PutsKeepVersion }
{}
