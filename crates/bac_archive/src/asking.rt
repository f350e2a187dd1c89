//! What an archive is asked.

ghost use Rattle.std.specs.Prelude.{◌≡◌, ◌⊎◌, [], OnOk, IfErr, IfOk};
ghost use Rattle.sqlite.specs.State.{HasCleanDisk, Survives, IsUnchanged, FailsToQuery};
ghost use Rattle.sqlite.specs.Held.{state};
ghost use Rattle.bac_archive.specs.Ask.{AreAnswers, FailsToAnswer, FailsToAnswerTo, IsAnswer};
ghost use Rattle.bac_archive.specs.Ask.{IsLeft, asked};
ghost use Rattle.bac_archive.specs.Schema.{HasArchive, OverArchive};

use sqlite::{Alter, Connection, Error, Row};

/// A question for a table.
#[derive(Clone, Copy)]
pub(crate) enum Question {
    Archive,
    Devices,
    Logs,
    Beginnings,
    Items,
    Spans,
}

/// The rows of the tables, but those of items.
#[derive(Drop)]
pub(crate) struct Tables {
    pub(crate) archive: Vec<Row>,
    pub(crate) devices: Vec<Row>,
    pub(crate) logs: Vec<Row>,
    pub(crate) beginnings: Vec<Row>,
}

/// A question as it is written.
pub(crate) fn asked(question: Question) -> &'static str
    ensures { result.now ≡ asked question }
{
    match question {
        Question::Archive => "SELECT version, made FROM archive",
        Question::Devices => {
            "SELECT id, address, dnet, dadr, instance, name, revision, whole, stopped, answered, \
             offset FROM devices ORDER BY id"
        }
        Question::Logs => {
            "SELECT id, device, instance, name, source, units, description, restart, revision, \
             stopped FROM logs ORDER BY id DESC"
        }
        Question::Beginnings => "SELECT id, number, why FROM beginnings ORDER BY id DESC",
        Question::Items => {
            "SELECT id, last, stamp, value, datum, flags FROM items ORDER BY id DESC"
        }
        Question::Spans => "SELECT id, last FROM items ORDER BY id",
    }
}

/// The rows of a table.
pub(crate) fn rows_of<S: Alter>(
    conn: &mut Connection<S>,
    question: Question,
) -> Result<Vec<Row>, Error>
    ensures told { OverArchive (state S.Store conn.old) (state S.Store conn.new)
        (IfOk result (λ rows. IsAnswer question (state S.Store conn.old).now.trees rows.items)) }
    ensures same { OverArchive (state S.Store conn.old) (state S.Store conn.new)
        (OnOk result (IsUnchanged (state S.Store conn.old) (state S.Store conn.new))) }
    ensures left { OverArchive (state S.Store conn.old) (state S.Store conn.new)
        (IsLeft (state S.Store conn.old) (state S.Store conn.new)) }
    ensures cause { HasCleanDisk (state S.Store conn.new)
        → IfErr result
        (FailsToQuery (asked question) [] (state S.Store conn.old) (state S.Store conn.new)) }
    ensures crash { (HasCleanDisk (state S.Store conn.old)
        → HasArchive (state S.Store conn.old).now.schema)
        → Survives (state S.Store conn.old) (state S.Store conn.new) (λ _. ⊥) }
    ensures clean { HasCleanDisk (state S.Store conn.new) → HasCleanDisk (state S.Store conn.old) }
{
    let rows = conn.query_all(asked(question), &[])?;
    Ok(rows)
}

/// The rows of two tables.
pub(crate) fn rows_of_two<S: Alter>(
    conn: &mut Connection<S>,
    one: Question,
    two: Question,
) -> Result<(Vec<Row>, Vec<Row>), Error>
    ensures told { OverArchive (state S.Store conn.old) (state S.Store conn.new)
        (IfOk result (λ rows. IsAnswer one (state S.Store conn.old).now.trees rows.0.items
        × IsAnswer two (state S.Store conn.old).now.trees rows.1.items)) }
    ensures same { OverArchive (state S.Store conn.old) (state S.Store conn.new)
        (OnOk result (IsUnchanged (state S.Store conn.old) (state S.Store conn.new))) }
    ensures left { OverArchive (state S.Store conn.old) (state S.Store conn.new)
        (IsLeft (state S.Store conn.old) (state S.Store conn.new)) }
    ensures cause { OverArchive (state S.Store conn.old) (state S.Store conn.new)
        (IfErr result (λ e. FailsToAnswerTo S.Store one conn.old conn.new e
        ⊎ FailsToAnswerTo S.Store two conn.old conn.new e)) }
    ensures crash { (HasCleanDisk (state S.Store conn.old)
        → HasArchive (state S.Store conn.old).now.schema)
        → Survives (state S.Store conn.old) (state S.Store conn.new) (λ _. ⊥) }
    ensures clean { HasCleanDisk (state S.Store conn.new) → HasCleanDisk (state S.Store conn.old) }
{
    let first = rows_of(conn, one)?;
    let second = rows_of(conn, two)?;
    Ok((first, second))
}

/// The rows of the tables, but those of items.
pub(crate) fn tables_of<S: Alter>(conn: &mut Connection<S>) -> Result<Tables, Error>
    requires { HasCleanDisk (state S.Store conn.old)
        → HasArchive (state S.Store conn.old).now.schema }
    ensures told { HasCleanDisk (state S.Store conn.new)
        → IfOk result (AreAnswers (state S.Store conn.old).now.trees) }
    ensures same { HasCleanDisk (state S.Store conn.new)
        → OnOk result (IsUnchanged (state S.Store conn.old) (state S.Store conn.new)) }
    ensures left { HasCleanDisk (state S.Store conn.new)
        → IsLeft (state S.Store conn.old) (state S.Store conn.new) }
    ensures cause { HasCleanDisk (state S.Store conn.new)
        → IfErr result (FailsToAnswer S.Store conn.old conn.new) }
    ensures crash { Survives (state S.Store conn.old) (state S.Store conn.new) (λ _. ⊥) }
{
    let first = rows_of_two(conn, Question::Archive, Question::Devices)?;
    let second = rows_of_two(conn, Question::Logs, Question::Beginnings)?;
    Ok(Tables {
        archive: first.0,
        devices: first.1,
        logs: second.0,
        beginnings: second.1,
    })
}
