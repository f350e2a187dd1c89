//! How many records a question asks for.

ghost use Rattle.std.specs.Prelude.{◌≡◌, ◌↔◌, ◌<◌, IfSome, IsSome};
ghost use Rattle.bac_link.specs.Standard.{IsCount};

use std::marker::Model;

/// How many records a walk asks for at a time: 1 to 100. A device that doesn't shorten its answers
/// may be able to answer for few only.
#[derive(Clone, Copy, Debug, PartialEq, Eq)]
pub struct Count {
    number: u8,
}

impl Model for Count {
    ghost use Rattle.std.specs.Prelude.{ℕ};
    ghost use Rattle.bac_link.specs.Standard.{IsCount};

    ghost Value = { ℕ };

    ghost view = { λ c. c.number };

    ghost invariant = { λ c. IsCount c.number };

    ghost inverse = { λ n. record { number = n } };
}

impl Count {
    /// So many; `None` if they are none, or more than 100.
    pub fn new(number: u8) -> Option<Count>
        ensures some { IfSome result (λ c. c ≡ number) }
        ensures is_some { IsSome result ↔ IsCount number }
    {
        if number == 0 || number > 100 {
            return None;
        }
        Some(Count { number })
    }

    /// As many as a walk asks for if nothing else is said: 100.
    pub fn most() -> Count
        ensures { result ≡ 100 }
    {
        Count { number: 100 }
    }

    /// The number, 1 to 100.
    pub fn number(&self) -> u8
        ensures value { result ≡ self.now }
        ensures bounds { IsCount result }
    {
        self.number
    }
}
