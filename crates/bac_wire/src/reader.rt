//! Tags and values, one after the other (clause 20.2.1).

ghost use Rattle.std.specs.Prelude.{◌≡◌, ◌+◌, ◌-◌, length, take, IfOk};
ghost use Rattle.bac_wire.specs.Chain.{Gives};
ghost use Rattle.bac_wire.specs.Level.{close_at};
ghost use Rattle.bac_wire.specs.Next.{value_next, opening_next, other_next};
ghost use Rattle.bac_wire.specs.PrimitiveType.{type_number};
ghost use Rattle.bac_wire.specs.Reading.{context_at, mark_at, value_at};
ghost use Rattle.bac_wire.specs.View.{view, IsWellFormed};

use crate::context::{read_close, read_context, read_open};
use crate::fault::WireFault;
use crate::level::octets_to_close;
use crate::next::{is_opening_next, is_other_type_next, is_value_next};
use crate::primitive_type::PrimitiveType;
use crate::reading::read_value;
use crate::value::Value;
use std::marker::Model;

/// The octets that are left to read. What is read is taken off the front; after an `Err` it isn't
/// said what is left.
#[derive(Drop)]
pub struct Reader<'a> {
    rest: &'a [u8],
}

impl<'a> Model for Reader<'a> {
    ghost use Rattle.std.specs.Prelude.{List, ℕ};

    ghost Value = { List ℕ };

    ghost view = { λ t. t.rest.now };
}

impl<'a> Reader<'a> {
    pub fn of(bytes: &'a [u8]) -> Reader<'a>
        ensures { result ≡ bytes.now }
    {
        Reader { rest: bytes }
    }

    /// What is left.
    pub fn rest(&self) -> &'a [u8]
        ensures { result.now ≡ self.now }
    {
        self.rest
    }

    // ---- which tag is next

    /// Whether a value after the context tag of this number is next.
    pub fn is_value_next(&self, number: u8) -> bool
        ensures { result ≡ value_next number self.now }
    {
        is_value_next(self.rest, number)
    }

    /// Whether the opening tag of this number is next.
    pub fn is_opening_next(&self, number: u8) -> bool
        ensures { result ≡ opening_next number self.now }
    {
        is_opening_next(self.rest, number)
    }

    /// Whether an application tag of another type is next.
    pub fn is_other_type_next(&self, wanted: PrimitiveType) -> bool
        ensures { result ≡ other_next (type_number wanted) self.now }
    {
        is_other_type_next(self.rest, wanted)
    }

    // ---- what is next

    /// The opening tag of this number.
    pub fn open(&mut self, number: u8) -> Result<(), WireFault>
        ensures { Gives (λ _. (tt, self.new)) result (mark_at 6 number self.old) }
    {
        let used = read_open(self.rest, number)?;
        self.rest = &self.rest[used..];
        Ok(())
    }

    /// The closing tag of this number.
    pub fn close(&mut self, number: u8) -> Result<(), WireFault>
        ensures { Gives (λ _. (tt, self.new)) result (mark_at 7 number self.old) }
    {
        let used = read_close(self.rest, number)?;
        self.rest = &self.rest[used..];
        Ok(())
    }

    /// What comes before the closing tag of this number, which is left.
    pub fn inside(&mut self, number: u8) -> Result<&'a [u8], WireFault>
        ensures found { IfOk result
            (λ x. x.now ≡ take (length self.old - length self.new) self.old) }
        ensures exact { Gives (λ _. self.new) result
            (close_at (length self.old + 1) 0 number self.old) }
    {
        let count = octets_to_close(self.rest, number)?;
        let inside = &self.rest[..count];
        self.rest = &self.rest[count..];
        Ok(inside)
    }

    /// The contents after the context tag of this number.
    pub fn contents(&mut self, number: u8) -> Result<&'a [u8], WireFault>
        ensures { Gives (λ x. (x.now, self.new)) result (context_at number self.old) }
    {
        let (contents, used) = read_context(self.rest, number)?;
        self.rest = &self.rest[used..];
        Ok(contents)
    }

    /// A value after its application tag.
    pub fn value(&mut self) -> Result<Value<'a>, WireFault>
        ensures exact { Gives (λ x. (view x, self.new)) result (value_at self.old) }
        ensures well_formed { IfOk result IsWellFormed }
    {
        match read_value(self.rest) {
            Ok((value, used)) => {
                self.rest = &self.rest[used..];
                Ok(value)
            }
            Err(fault) => Err(fault),
        }
    }
}
