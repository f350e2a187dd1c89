//! Several texts that are owned.

ghost use Rattle.std.specs.Prelude.{◌≡◌, ◌++◌, ◌∷◌, [], OnOk};
ghost use Rattle.bac_command_line.specs.Groups.{are_none};

use crate::name::Name;
use std::alloc::AllocError;
use std::marker::Model;

/// Texts in their order.
#[derive(Debug, Drop)]
pub struct Names {
    list: Vec<Name>,
}

impl Model for Names {
    ghost use Rattle.std.specs.Prelude.{ℕ, List};

    ghost Value = { List (List ℕ) };

    ghost view = { λ names. names.list.items };
}

impl Names {
    /// These texts.
    pub fn of(list: Vec<Name>) -> Names
        ensures { result ≡ list.items }
    {
        Names { list }
    }

    /// All of them.
    pub fn as_slice(&self) -> &[Name]
        ensures { result.now ≡ self.now }
    {
        self.list.as_slice()
    }

    /// Whether there is none.
    pub fn are_none(&self) -> bool
        ensures { result ≡ are_none self.now }
    {
        self.list.is_empty()
    }

    /// Puts one behind the others.
    pub fn push(&mut self, name: Name) -> Result<(), AllocError>
        ensures { OnOk result (self.new ≡ self.old ++ name ∷ []) }
    {
        self.list.push(name)?;
        Ok(())
    }
}
