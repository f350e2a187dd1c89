//! A trend log, as it stands on record.

ghost use Rattle.std.specs.Prelude.{◌≡◌, IfOk, OnOk};
ghost use Rattle.std.specs.Str.{bytes_eq};
ghost use Rattle.bac_archive.specs.Put.{log_columns};
ghost use Rattle.bac_poll.specs.State.{told_as};
ghost use Rattle.bac_device_poller.specs.Naming.{has_word, is_revision, named_as, source_or};
ghost use Rattle.bac_device_poller.specs.Naming.{text_or, units_or};
ghost use Rattle.bac_device_poller.specs.Naming.{with_word};
ghost use Rattle.bac_device_poller.specs.Rows.{columns_of_log};

use crate::naming::{source_text, units_text};
use crate::texts::{copied, restart_in, text_in};
use bac_archive::LogRow;
use bac_device_poll::{Naming, Reference, Text};
use bac_poll::Told;
use bac_row_ids::Place;
use std::alloc::{AllocError, Global};
use std::marker::Model;

/// A trend log of a device, as it stands on record.
#[derive(Drop)]
pub struct LogRecord {
    /// Its row; what that has of the word of its device isn't read.
    pub row: LogRow,
    /// The word of its device: its restart, as that is kept; no octets: none is on record.
    pub restart: Vec<u8>,
    pub revision: Option<u32>,
    /// Where the next row of its items stands; none, if it has no epoch left.
    pub place: Option<Place>,
    /// The number that comes next, behind its rows.
    pub next: u32,
    /// How its lines call it.
    pub called: Vec<u8>,
}

impl Model for LogRecord {
    ghost use Rattle.std.specs.Option.{option_map};
    ghost use Rattle.bac_device_poller.specs.Puts.{place_as};
    ghost use Rattle.bac_device_poller.specs.Rows.{LogAs, text_as};

    ghost Value = { LogAs };

    ghost view = { λ l. record {
      id = l.row.id;
      device = l.row.device;
      instance = l.row.instance;
      name = text_as l.row.name;
      source = text_as l.row.source;
      units = text_as l.row.units;
      description = text_as l.row.description;
      restart = l.restart.items;
      revision = l.revision;
      stopped = l.row.stopped;
      place = option_map place_as l.place;
      next = l.next;
      called = l.called.items;
    } };
}

// Whether two revisions are the same.
fn is_revision(was: Option<u32>, now: Option<u32>) -> bool
    ensures { result ≡ is_revision was now }
{
    match (was, now) {
        (None, None) => true,
        (None, Some(_)) => false,
        (Some(_), None) => false,
        (Some(was), Some(now)) => was == now,
    }
}

impl LogRecord {
    /// Its row, as it is put.
    pub(crate) fn row(&self, alloc: Global) -> Result<LogRow, AllocError>
        ensures { IfOk result (λ row. log_columns row ≡ columns_of_log self.now) }
    {
        let name = copied(&self.row.name)?;
        let source = copied(&self.row.source)?;
        let units = copied(&self.row.units)?;
        let description = copied(&self.row.description)?;
        let restart = restart_in(alloc, self.restart.as_slice())?;
        Ok(LogRow {
            id: self.row.id,
            device: self.row.device,
            instance: self.row.instance,
            name,
            source,
            units,
            description,
            restart,
            revision: self.revision,
            stopped: self.row.stopped,
        })
    }

    // Its name is told.
    fn set_name(&mut self, alloc: Global, name: &Option<Text>) -> Result<(), AllocError>
        ensures { OnOk result (self.new
            ≡ record self.old { name = text_or name.now self.old.name }) }
    {
        if let Some(name) = name {
            self.row.name = text_in(alloc, name.octets())?;
        }
        Ok(())
    }

    // Its description is.
    fn set_description(&mut self, alloc: Global, text: &Option<Text>) -> Result<(), AllocError>
        ensures { OnOk result (self.new
            ≡ record self.old { description = text_or text.now self.old.description }) }
    {
        if let Some(text) = text {
            self.row.description = text_in(alloc, text.octets())?;
        }
        Ok(())
    }

    // What it logs is.
    fn set_source(&mut self, alloc: Global, source: Option<Reference>) -> Result<(), AllocError>
        ensures { OnOk result (self.new
            ≡ record self.old { source = source_or source self.old.source }) }
    {
        if let Some(source) = source {
            self.row.source = source_text(alloc, source)?;
        }
        Ok(())
    }

    // The units of that are.
    fn set_units(&mut self, alloc: Global, units: Option<u32>) -> Result<(), AllocError>
        ensures { OnOk result (self.new
            ≡ record self.old { units = units_or units self.old.units }) }
    {
        if let Some(units) = units {
            self.row.units = units_text(alloc, units)?;
        }
        Ok(())
    }

    /// What it is was told.
    pub(crate) fn rename(&mut self, alloc: Global, naming: &Naming) -> Result<(), AllocError>
        ensures { OnOk result (self.new ≡ named_as naming.now self.old) }
    {
        self.set_name(alloc, &naming.name)?;
        self.set_source(alloc, naming.source)?;
        self.set_units(alloc, naming.units)?;
        self.set_description(alloc, &naming.description)
    }

    /// Whether this word is the one on record.
    pub(crate) fn has_word(&self, word: &Told) -> bool
        ensures { result ≡ has_word (told_as word.now) self.now }
    {
        self.restart.as_slice() == word.restart.as_slice()
            && is_revision(self.revision, word.revision)
    }

    /// It is on record.
    pub(crate) fn set_word(&mut self, alloc: Global, word: &Told) -> Result<(), AllocError>
        ensures { OnOk result (self.new ≡ with_word (told_as word.now) self.old) }
    {
        let mut restart = Vec::new(alloc);
        restart.extend_from_slice(word.restart.as_slice())?;
        self.restart = restart;
        self.revision = word.revision;
        Ok(())
    }
}
