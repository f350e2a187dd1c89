//! An empty database becomes an archive.

ghost use Rattle.std.specs.Prelude.{◌≡◌, OnOk, OnErr, IfErr, IsTrue};
ghost use Rattle.sqlite.specs.State.{HasCleanDisk, Survives, KeepsCommit};
ghost use Rattle.sqlite.specs.Held.{state};
ghost use Rattle.bac_archive.specs.Schema.{no_schema};
ghost use Rattle.bac_archive.specs.Making.{FailsToFill, FailsToMake, IsFilled, IsMadeOf};

use crate::creation::lay_all;
use crate::ending::finish;
use crate::putting::put_each;
use crate::row::Put;
use sqlite::{Alter, Connection, Error, ErrorCode, Transaction};

/// Makes the tables and the views, and puts these rows in turn.
fn fill<S: Alter>(tx: &mut Transaction<'_, S>, made: &str, puts: &[Put]) -> Result<(), Error>
    ensures same_reference { tx.new.conn.ghost_name ≡ tx.old.conn.ghost_name }
    ensures fills { HasCleanDisk (state S.Store tx.new.conn.now)
        → IsTrue (state S.Store tx.old.conn.now).in_transaction
        → (state S.Store tx.old.conn.now).now.schema ≡ no_schema
        → OnOk result
        (IsFilled made.now (state S.Store tx.old.conn.now) (state S.Store tx.new.conn.now)
        puts.now) }
    ensures cause { HasCleanDisk (state S.Store tx.new.conn.now)
        → IsTrue (state S.Store tx.old.conn.now).in_transaction
        → (state S.Store tx.old.conn.now).now.schema ≡ no_schema
        → IfErr result (FailsToFill S.Store made.now tx.old.conn.now tx.new.conn.now puts.now) }
    ensures crash { Survives (state S.Store tx.old.conn.now) (state S.Store tx.new.conn.now)
        (λ _. ⊥) }
    ensures kept { HasCleanDisk (state S.Store tx.new.conn.now)
        → IsTrue (state S.Store tx.old.conn.now).in_transaction
        → (state S.Store tx.old.conn.now).now.schema ≡ no_schema
        → KeepsCommit (state S.Store tx.old.conn.now) (state S.Store tx.new.conn.now) }
{
    lay_all(tx, made)?;
    put_each(tx, puts)
}

/// Makes an archive with these rows of an empty database, in one transaction: all of it or nothing,
/// also over a crash. `made` is this moment in UTC; of a part of an archive the moment of that one.
/// A transaction that is open already is refused.
pub fn make<S: Alter>(conn: &mut Connection<S>, made: &str, puts: &[Put]) -> Result<(), Error>
    requires { (state S.Store conn.old).now.schema ≡ no_schema }
    ensures all { HasCleanDisk (state S.Store conn.new)
        → OnOk result (IsMadeOf made.now (state S.Store conn.new).now puts.now
        × ((state S.Store conn.new).committed ≡ (state S.Store conn.new).now)) }
    ensures neither { HasCleanDisk (state S.Store conn.new)
        → IsTrue (state S.Store conn.new).is_open
        → OnErr result (((state S.Store conn.new).now ≡ (state S.Store conn.old).now)
        × ((state S.Store conn.new).committed ≡ (state S.Store conn.old).committed)) }
    // A transaction was open; or the database gave up on a statement, or on the commit.
    ensures cause { HasCleanDisk (state S.Store conn.new)
        → IfErr result (FailsToMake S.Store made.now conn.old puts.now) }
    ensures crash { Survives (state S.Store conn.old) (state S.Store conn.new)
        (λ trees. (db : _) × IsMadeOf made.now db puts.now × (trees ≡ db.trees)) }
    ensures clean { HasCleanDisk (state S.Store conn.new) → HasCleanDisk (state S.Store conn.old) }
{
    if !conn.is_autocommit() {
        return Err(Error::SqliteFailure(ErrorCode::TransactionState));
    }
    let mut tx = conn.transaction();
    let filled = fill(&mut tx, made, puts);
    finish(tx, filled.err())
}
