//! The newest record of each log that isn't stopped, looked for in an archive, or in its parts.

ghost use Rattle.std.specs.Prelude.{◌≡◌, [], ◌++◌, IfErr, IfOk, List, OnErr, OnOk, length, map};
ghost use Rattle.std.specs.Prelude.{nat_lt, option_copied, option_map};
ghost use Rattle.std.specs.List.{list_any};
ghost use Rattle.sqlite.specs.State.{HasCleanDisk, IsUnchanged, Survives};
ghost use Rattle.sqlite.specs.Held.{state};
ghost use Rattle.bac_archive.specs.Ask.{IsAsWas, IsLeft};
ghost use Rattle.bac_archive.specs.Known.{FailsToKnow, IsKnown};
ghost use Rattle.bac_archive.specs.Schema.{HasArchive, OverArchive};
ghost use Rattle.bac_kept.specs.Faults.{FailsOnItems, IsLeftAs};
ghost use Rattle.bac_kept.specs.Lasts.{FailsOnOne, HasLookedFor, LooksFor, LooksForEach};
ghost use Rattle.bac_kept.specs.Lasts.{asked, found_of, has_begun, is_counted};
ghost use Rattle.bac_kept.specs.Lasts.{is_sought, last_logs};
ghost use Rattle.bac_kept.specs.Records.{FailsBy, all_of};
ghost use Rattle.bac_kept.specs.Shown.{shown_logs, told_of};

use crate::fault::Fault;
use crate::record::{Record, newest_record};
use crate::shown::{ShownLog, shown_logs, shown_of, with_shown};
use crate::words::Choice;
use bac_archive::{BeginningRow, Known, read_known};
use sqlite::{Alter, Connection};
use std::alloc::{AllocError, Global};

/// How many epochs a log has.
const EPOCHS: u32 = 32_768;

/// The newest record of a log.
#[derive(Drop)]
pub(crate) struct Found {
    log: u16,
    newest: Record,
}

/// The newest record of each log that isn't stopped.
#[derive(Drop)]
pub struct Lasts {
    /// What the archive has on record, or the part that was looked into first.
    pub(crate) known: Known,
    /// The records that were found.
    pub(crate) found: Vec<Found>,
}

/// A log that is shown, unless it is stopped, or its device.
fn asked<'a>(shown: Option<ShownLog<'a>>) -> Option<ShownLog<'a>>
    ensures { option_map told_of result ≡ asked (option_map told_of shown.entry) }
{
    match shown {
        Some(shown) if !shown.log.stopped && !shown.device.stopped => Some(shown),
        _ => None,
    }
}

/// The logs that are chosen and aren't stopped, in the order of their ids.
pub(crate) fn last_logs<'a>(
    alloc: Global,
    known: &'a Known,
    choice: Choice<'_>,
) -> Result<Vec<ShownLog<'a>>, AllocError>
    ensures { IfOk result (λ all. map told_of all.items ≡ last_logs known.now choice.entry) }
{
    let mut all = Vec::new(alloc);
    for log in known.logs.as_slice() {
        all = with_shown(all, asked(shown_of(known, choice, log)))?;
    }
    Ok(all)
}

/// The newest record of a log that was found, if one was.
pub(crate) fn found_of(found: &[Found], log: u16) -> Option<&Record>
    ensures { option_copied result ≡ found_of found.now log }
{
    for one in found {
        if one.log == log {
            return Some(&one.newest);
        }
    }
    None
}

/// Looks for the newest record of a log, unless one was found before.
fn look_for<A: Alter>(
    alloc: Global,
    conn: &mut Connection<A>,
    log: u16,
    found: &mut Vec<Found>,
) -> Result<(), Fault>
    ensures ok { OverArchive (state A.Store conn.old) (state A.Store conn.new)
        (OnOk result (LooksFor ((state A.Store conn.old).now.trees 5) log found.old.items
        found.new.items)) }
    ensures err { OnErr result (found.new.items ≡ found.old.items) }
    ensures same { OverArchive (state A.Store conn.old) (state A.Store conn.new)
        (OnOk result (IsAsWas A.Store conn.old conn.new)) }
    ensures left { OverArchive (state A.Store conn.old) (state A.Store conn.new)
        (IsLeftAs A.Store conn.old conn.new) }
    ensures crash { HasArchive (state A.Store conn.old).now.schema
        → Survives (state A.Store conn.old) (state A.Store conn.new) (λ _. ⊥) }
    ensures clean { HasCleanDisk (state A.Store conn.new) → HasCleanDisk (state A.Store conn.old) }
    ensures fault { OverArchive (state A.Store conn.old) (state A.Store conn.new)
        (IfErr result (FailsBy (FailsOnItems A.Store (all_of log) conn.old conn.new))) }
{
    if found_of(found.as_slice(), log).is_some() {
        return Ok(());
    }
    let Some(record) = newest_record(alloc, conn, log)? else {
        return Ok(());
    };
    match found.push(Found {
        log,
        newest: record,
    }) {
        Ok(()) => Ok(()),
        Err(_) => Err(Fault::Memory),
    }
}

/// The same of each of these logs.
fn look_for_each<A: Alter>(
    alloc: Global,
    conn: &mut Connection<A>,
    logs: &[ShownLog<'_>],
    found: &mut Vec<Found>,
) -> Result<(), Fault>
    ensures ok { OverArchive (state A.Store conn.old) (state A.Store conn.new)
        (OnOk result (LooksForEach ((state A.Store conn.old).now.trees 5) (map told_of logs.now)
        found.old.items found.new.items)) }
    // An error leaves what was found of the first of them.
    ensures err { OverArchive (state A.Store conn.old) (state A.Store conn.new)
        (OnErr result (HasLookedFor ((state A.Store conn.old).now.trees 5) (map told_of logs.now)
        found.old.items found.new.items)) }
    ensures same { OverArchive (state A.Store conn.old) (state A.Store conn.new)
        (OnOk result (IsAsWas A.Store conn.old conn.new)) }
    ensures left { OverArchive (state A.Store conn.old) (state A.Store conn.new)
        (IsLeftAs A.Store conn.old conn.new) }
    ensures crash { OverArchive (state A.Store conn.old) (state A.Store conn.new)
        (Survives (state A.Store conn.old) (state A.Store conn.new) (λ _. ⊥)) }
    ensures clean { HasCleanDisk (state A.Store conn.new) → HasCleanDisk (state A.Store conn.old) }
    ensures fault { OverArchive (state A.Store conn.old) (state A.Store conn.new)
        (IfErr result (FailsBy (FailsOnOne A.Store conn.old conn.new))) }
{
    for shown in logs {
        look_for(alloc, conn, shown.log.id, found)?;
    }
    Ok(())
}

/// Whether only its log's count told where an epoch begins, so no record was kept of it.
fn is_counted(beginning: &BeginningRow) -> bool
    ensures { result ≡ is_counted beginning.now }
{
    match &beginning.why {
        Some(why) => why.as_str() == "counted",
        None => false,
    }
}

/// Whether records of a log were kept, in whichever part.
fn has_begun(shown: &ShownLog<'_>) -> bool
    ensures { result ≡ has_begun (told_of shown.now) }
{
    for beginning in shown.beginnings {
        if beginning.id / EPOCHS == u32::from(shown.log.id) && !is_counted(beginning) {
            return true;
        }
    }
    false
}

/// Whether the newest record of one of these logs is in a part that wasn't looked into.
fn is_any_sought(logs: &[ShownLog<'_>], found: &[Found]) -> bool
    ensures { result ≡ list_any (is_sought found.now) (map told_of logs.now) }
{
    for shown in logs {
        if has_begun(shown) && found_of(found, shown.log.id).is_none() {
            return true;
        }
    }
    false
}

impl Lasts {
    /// Nothing is looked for yet in an archive; it tells which logs it has.
    pub fn begin<A: Alter>(alloc: Global, conn: &mut Connection<A>) -> Result<Lasts, Fault>
        ensures known { OverArchive (state A.Store conn.old) (state A.Store conn.new)
            (IfOk result (λ lasts. IsKnown (state A.Store conn.old).now.trees lasts.known)) }
        ensures none { IfOk result (λ lasts. lasts.found.items ≡ []) }
        ensures same { OverArchive (state A.Store conn.old) (state A.Store conn.new)
            (OnOk result (IsUnchanged (state A.Store conn.old) (state A.Store conn.new))) }
        ensures left { OverArchive (state A.Store conn.old) (state A.Store conn.new)
            (IsLeft (state A.Store conn.old) (state A.Store conn.new)) }
        ensures crash { (HasCleanDisk (state A.Store conn.old)
            → HasArchive (state A.Store conn.old).now.schema)
            → Survives (state A.Store conn.old) (state A.Store conn.new) (λ _. ⊥) }
        ensures clean { HasCleanDisk (state A.Store conn.new)
            → HasCleanDisk (state A.Store conn.old) }
        ensures fault { OverArchive (state A.Store conn.old) (state A.Store conn.new)
            (IfErr result (FailsBy (FailsToKnow A.Store conn.old conn.new))) }
    {
        match read_known(alloc, conn) {
            Ok(known) => Ok(Lasts {
                known,
                found: Vec::new(alloc),
            }),
            Err(error) => Err(Fault::Database(error)),
        }
    }

    /// Whether a log of the archive is chosen.
    pub fn has_chosen(&self, alloc: Global, choice: Choice<'_>) -> Result<bool, AllocError>
        ensures { IfOk result (λ any.
            any ≡ nat_lt 0 (length (shown_logs self.now.known choice.entry))) }
    {
        let all = shown_logs(alloc, &self.known, choice)?;
        Ok(!all.is_empty())
    }

    /// Looks in an archive for the newest records of the logs that are chosen, where none was found
    /// before: in an earlier part where a later one had none. Answers whether one of them is still
    /// to be found, in a part before.
    pub fn look<A: Alter>(
        &mut self,
        alloc: Global,
        conn: &mut Connection<A>,
        choice: Choice<'_>,
    ) -> Result<bool, Fault>
        ensures known { self.new.known ≡ self.old.known }
        ensures ok { OverArchive (state A.Store conn.old) (state A.Store conn.new)
            (OnOk result (LooksForEach ((state A.Store conn.old).now.trees 5)
            (last_logs self.old.known choice.entry) self.old.found.items self.new.found.items)) }
        ensures sought { IfOk result (λ more. more
            ≡ list_any (is_sought self.new.found.items) (last_logs self.old.known choice.entry)) }
        ensures err { OverArchive (state A.Store conn.old) (state A.Store conn.new)
            (OnErr result (HasLookedFor ((state A.Store conn.old).now.trees 5)
            (last_logs self.old.known choice.entry) self.old.found.items self.new.found.items)) }
        ensures same { OverArchive (state A.Store conn.old) (state A.Store conn.new)
            (OnOk result (IsAsWas A.Store conn.old conn.new)) }
        ensures left { OverArchive (state A.Store conn.old) (state A.Store conn.new)
            (IsLeftAs A.Store conn.old conn.new) }
        ensures crash { OverArchive (state A.Store conn.old) (state A.Store conn.new)
            (Survives (state A.Store conn.old) (state A.Store conn.new) (λ _. ⊥)) }
        ensures clean { HasCleanDisk (state A.Store conn.new)
            → HasCleanDisk (state A.Store conn.old) }
        ensures fault { OverArchive (state A.Store conn.old) (state A.Store conn.new)
            (IfErr result (FailsBy (FailsOnOne A.Store conn.old conn.new))) }
    {
        let Ok(logs) = last_logs(alloc, &self.known, choice) else {
            return Err(Fault::Memory);
        };
        let logs = logs.as_slice();
        look_for_each(alloc, conn, logs, &mut self.found)?;
        Ok(is_any_sought(logs, self.found.as_slice()))
    }
}
