//! Several instances of objects.

ghost use Rattle.std.specs.Prelude.{◌≡◌, map};
ghost use Rattle.clap.specs.Words.{rows_of, found_of};
ghost use Rattle.bac_command_line.specs.Rows.{instances_in, instances_at};
ghost use Rattle.bac_command_line.specs.Steps.{Makes};

use crate::fault::WordsFault;
use crate::numbers::number;
use crate::word::Word;
use clap::ArgMatches;
use std::alloc::Global;
use std::marker::Model;

/// The greatest object instance (clause 20.2.14).
const MAX_INSTANCE: u32 = 4_194_303;

/// Instances in their order.
#[derive(Debug, Drop)]
pub struct Instances {
    list: Vec<u32>,
}

impl Model for Instances {
    ghost use Rattle.std.specs.Prelude.{ℕ, List};

    ghost Value = { List ℕ };

    ghost view = { λ instances. instances.list.items };
}

impl Instances {
    /// These instances.
    pub fn of(list: Vec<u32>) -> Instances
        ensures { result ≡ list.items }
    {
        Instances { list }
    }

    /// All of them.
    pub fn as_slice(&self) -> &[u32]
        ensures { result.now ≡ self.now }
    {
        self.list.as_slice()
    }
}

/// The instance that each text says.
fn instances_in(alloc: Global, texts: &[&str]) -> Result<Instances, WordsFault>
    ensures { Makes (instances_in (map (λ text. text.now) texts.now)) result }
{
    let mut list = Vec::new(alloc);
    for text in texts {
        let Some(instance) = number(text.as_bytes(), 0, MAX_INSTANCE) else {
            return Err(WordsFault::BadValue(Word::Instance));
        };
        if list.push(instance).is_err() {
            return Err(WordsFault::Memory);
        }
    }
    Ok(Instances::of(list))
}

/// What each of the words says.
pub(crate) fn instances_at(alloc: Global, matches: &ArgMatches) -> Result<Instances, WordsFault>
    ensures { Makes (instances_at (rows_of (found_of matches.now))) result }
{
    match matches.get_raw(Word::Instance.name()) {
        Some(texts) => instances_in(alloc, texts),
        None => instances_in(alloc, &[]),
    }
}
