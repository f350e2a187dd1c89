//! What a device tells of itself.

ghost use Rattle.std.specs.Prelude.{◌≡◌, [], None, IfOk};
ghost use Rattle.bac_known.specs.DateTime.{undated};
ghost use Rattle.bac_known.specs.Kept.{told_as};
ghost use Rattle.bac_known.specs.Known.{is_other_restart, is_other_revision, is_other_word};
ghost use Rattle.bac_known.specs.Known.{is_restart_changed, is_retold, is_revision_changed};
ghost use Rattle.bac_known.specs.Known.{is_untold, word_of};
ghost use Rattle.bac_known.specs.Known.{revision_or, word_with};

use crate::date_time::DateTime;
use std::alloc::{AllocError, Global};

/// What a device tells of itself; a part that it refuses, or of which a part is unspecified, isn't
/// told.
#[derive(Drop)]
pub struct Told {
    /// Its Time_Of_Device_Restart, as it is kept; no octets: it isn't told.
    pub restart: Vec<u8>,
    /// The same as a date and time; unknown, if it is none.
    pub moment: DateTime,
    /// Its Database_Revision.
    pub revision: Option<u32>,
}

/// The word that a device tells, against the one on record.
#[derive(Clone, Copy, Debug, PartialEq, Eq)]
pub enum Word {
    /// Each part on record is told and is the same, and the restart is one of them.
    Same,
    /// A part on record is another one, or refused.
    Changed,
    /// No restart is on record.
    Untold,
}

impl Told {
    /// Nothing is told.
    pub fn nothing(alloc: Global) -> Told
        ensures { told_as result ≡ record { restart = []; moment = undated; revision = None } }
    {
        Told {
            restart: Vec::new(alloc),
            moment: DateTime::unknown(),
            revision: None,
        }
    }

    /// The same again.
    pub fn copied(&self, alloc: Global) -> Result<Told, AllocError>
        ensures { IfOk result (λ told. told_as told ≡ told_as self.now) }
    {
        let restart = copied(alloc, &self.restart)?;
        Ok(Told {
            restart,
            moment: self.moment,
            revision: self.revision,
        })
    }

    /// This word, with each part that is told.
    pub fn with(&self, alloc: Global, told: &Told) -> Result<Told, AllocError>
        ensures { IfOk result (λ word. told_as word
            ≡ word_with (told_as self.now) (told_as told.now)) }
    {
        let mut word = if told.restart.is_empty() {
            self.copied(alloc)?
        } else {
            told.copied(alloc)?
        };
        word.revision = revision_or(self.revision, told.revision);
        Ok(word)
    }
}

// Octets again.
fn copied(alloc: Global, octets: &Vec<u8>) -> Result<Vec<u8>, AllocError>
    ensures { IfOk result (λ copy. copy.items ≡ octets.now.items) }
{
    let mut copy = Vec::new(alloc);
    copy.extend_from_slice(octets.as_slice())?;
    Ok(copy)
}

// A revision that is told, else the one on record.
fn revision_or(was: Option<u32>, now: Option<u32>) -> Option<u32>
    ensures { result ≡ revision_or was now }
{
    match now {
        Some(now) => Some(now),
        None => was,
    }
}

// Another restart, where one is told and one is on record.
fn is_other_restart(was: &[u8], now: &[u8]) -> bool
    ensures { result ≡ is_other_restart was.now now.now }
{
    !was.is_empty() && !now.is_empty() && was != now
}

// The same of a revision.
fn is_other_revision(was: Option<u32>, now: Option<u32>) -> bool
    ensures { result ≡ is_other_revision was now }
{
    match was {
        Some(was) => match now {
            Some(now) => was != now,
            None => false,
        },
        None => false,
    }
}

/// Whether a part of the word that is told and on record is another one.
pub fn is_other_word(was: &Told, now: &Told) -> bool
    ensures { result ≡ is_other_word (told_as was.now) (told_as now.now) }
{
    is_other_restart(was.restart.as_slice(), now.restart.as_slice())
        || is_other_revision(was.revision, now.revision)
}

// A restart that is on record is refused, or another one.
fn is_restart_changed(was: &[u8], now: &[u8]) -> bool
    ensures { result ≡ is_restart_changed was.now now.now }
{
    !was.is_empty() && was != now
}

// The same of a revision.
fn is_revision_changed(was: Option<u32>, now: Option<u32>) -> bool
    ensures { result ≡ is_revision_changed was now }
{
    match was {
        Some(was) => match now {
            Some(now) => was != now,
            None => true,
        },
        None => false,
    }
}

/// Whether the restart on record is told, and is the same.
pub fn is_retold(was: &Told, now: &Told) -> bool
    ensures { result ≡ is_retold (told_as was.now) (told_as now.now) }
{
    !was.restart.is_empty() && was.restart.as_slice() == now.restart.as_slice()
}

// Whether a restart is on record.
fn is_untold(was: &[u8]) -> Word
    ensures { result ≡ is_untold was.now }
{
    if was.is_empty() {
        Word::Untold
    } else {
        Word::Same
    }
}

/// The word that is told now, against the one on record.
pub fn word_of(was: &Told, now: &Told) -> Word
    ensures { result ≡ word_of (told_as was.now) (told_as now.now) }
{
    if is_restart_changed(was.restart.as_slice(), now.restart.as_slice())
        || is_revision_changed(was.revision, now.revision)
    {
        Word::Changed
    } else {
        is_untold(was.restart.as_slice())
    }
}
