//! How a transaction of one call ends.

ghost use Rattle.std.specs.Prelude.{◌≡◌, ◌⊎◌, Some, None, OnOk, OnErr, IfErr, IsTrue};
ghost use Rattle.sqlite.specs.State.{HasCleanDisk, Survives, IsRolledBack};
ghost use Rattle.sqlite.specs.Steps.{FailsToCommit};
ghost use Rattle.sqlite.specs.Held.{state};

use sqlite::{Alter, Error, Transaction};

/// Commits a transaction; or undoes it, if what it was to do has failed.
pub(crate) fn finish<S: Alter>(tx: Transaction<'_, S>, failed: Option<Error>) -> Result<(), Error>
    ensures committed { HasCleanDisk (state S.Store tx.exit.0.now)
        → OnOk result ((failed ≡ None)
        × ((state S.Store tx.exit.0.now).now ≡ (state S.Store tx.entry.conn.now).now)
        × ((state S.Store tx.exit.0.now).committed ≡ (state S.Store tx.entry.conn.now).now)) }
    ensures undone { HasCleanDisk (state S.Store tx.exit.0.now)
        → (failed ≡ None → IsTrue (state S.Store tx.entry.conn.now).in_transaction)
        → OnErr result
        (IsRolledBack (state S.Store tx.entry.conn.now) (state S.Store tx.exit.0.now)) }
    ensures cause { HasCleanDisk (state S.Store tx.exit.0.now)
        → IfErr result (λ e. (failed ≡ Some e) ⊎ ((failed ≡ None)
        × FailsToCommit (state S.Store tx.entry.conn.now) (state S.Store tx.exit.0.now) e)) }
    ensures crash { Survives (state S.Store tx.entry.conn.now) (state S.Store tx.exit.0.now)
        (λ trees. (failed ≡ None) × (trees ≡ (state S.Store tx.entry.conn.now).now.trees)) }
{
    match failed {
        Some(error) => {
            tx.rollback();
            Err(error)
        }
        None => tx.commit(),
    }
}
