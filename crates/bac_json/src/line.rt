//! A line of JSON.

ghost use Rattle.std.specs.Prelude.{◌≡◌, ◌∷◌, ◌++◌, [], IfOk, List, OnOk, true};
ghost use Rattle.std.specs.Float.{float_is_finite};
ghost use Rattle.json.specs.Json.{Json, null, boolean};
ghost use Rattle.json.specs.Print.{print};
ghost use Rattle.json.specs.Token.{begin_object, end_object};
ghost use Rattle.bac_json.specs.Lines.{Field, IsFinite, IsReal, field_tokens, fields_tokens};
ghost use Rattle.bac_json.specs.Lines.{line_of, text, text_or_null, whole, whole_or_null};

use json::Writer;
use std::alloc::{AllocError, Global};

/// An object that is written field by field behind a text. After an error it is of no use.
#[derive(Drop)]
pub struct Line {
    alloc: Global,
    writer: Writer,
}

impl Line {
    /// Begins a line behind this text.
    pub fn begin(alloc: Global, text: Vec<u8>) -> Result<Line, AllocError>
        ensures before { IfOk result (λ line. line.writer.before ≡ text.items) }
        ensures tokens { IfOk result (λ line. line.writer.tokens ≡ begin_object ∷ []) }
    {
        let mut writer = Writer::new(text);
        writer.begin_object()?;
        Ok(Line { alloc, writer })
    }

    /// A field without a value.
    pub fn none(&mut self, key: &str) -> Result<(), AllocError>
        ensures before { self.new.writer.before ≡ self.old.writer.before }
        ensures tokens { OnOk result (self.new.writer.tokens
            ≡ self.old.writer.tokens ++ field_tokens (key.now, null)) }
    {
        self.writer.key(key)?;
        self.writer.null()
    }

    /// A flag.
    pub fn flag(&mut self, key: &str, flag: bool) -> Result<(), AllocError>
        ensures before { self.new.writer.before ≡ self.old.writer.before }
        ensures tokens { OnOk result (self.new.writer.tokens
            ≡ self.old.writer.tokens ++ field_tokens (key.now, boolean flag)) }
    {
        self.writer.key(key)?;
        self.writer.boolean(flag)
    }

    /// A text.
    pub fn text(&mut self, key: &str, octets: &[u8]) -> Result<(), AllocError>
        ensures before { self.new.writer.before ≡ self.old.writer.before }
        ensures tokens { OnOk result (self.new.writer.tokens
            ≡ self.old.writer.tokens ++ field_tokens (key.now, text octets.now)) }
    {
        let text = String::from_utf8_lossy(self.alloc, octets)?;
        self.writer.key(key)?;
        self.writer.string(text.as_str())
    }

    /// A text, or null where it is empty.
    pub fn text_or_null(&mut self, key: &str, octets: &[u8]) -> Result<(), AllocError>
        ensures before { self.new.writer.before ≡ self.old.writer.before }
        ensures tokens { OnOk result (self.new.writer.tokens
            ≡ self.old.writer.tokens ++ field_tokens (key.now, text_or_null octets.now)) }
    {
        if octets.is_empty() {
            return self.none(key);
        }
        self.text(key, octets)
    }

    /// A number that is no fraction.
    pub fn whole(&mut self, key: &str, number: u64) -> Result<(), AllocError>
        ensures before { self.new.writer.before ≡ self.old.writer.before }
        ensures tokens { OnOk result (self.new.writer.tokens
            ≡ self.old.writer.tokens ++ field_tokens (key.now, whole number)) }
    {
        self.writer.key(key)?;
        self.writer.u64(number)
    }

    /// The same, or null where there is none.
    pub fn whole_or_null(&mut self, key: &str, number: Option<u32>) -> Result<(), AllocError>
        ensures before { self.new.writer.before ≡ self.old.writer.before }
        ensures tokens { OnOk result (self.new.writer.tokens
            ≡ self.old.writer.tokens ++ field_tokens (key.now, whole_or_null number)) }
    {
        match number {
            Some(number) => self.whole(key, u64::from(number)),
            None => self.none(key),
        }
    }

    /// A number, which JSON has if it is finite: no NaN and no infinity.
    fn finite(&mut self, key: &str, real: f64) -> Result<(), AllocError>
        requires { float_is_finite real ≡ true }
        ensures before { self.new.writer.before ≡ self.old.writer.before }
        ensures tokens { OnOk result ((value : Json) × IsFinite true real value
            × (self.new.writer.tokens ≡ self.old.writer.tokens ++ field_tokens (key.now, value))) }
    {
        self.writer.key(key)?;
        self.writer.float(real)
    }

    /// A number; null if it is none or infinite.
    fn number(&mut self, key: &str, real: f64) -> Result<(), AllocError>
        ensures before { self.new.writer.before ≡ self.old.writer.before }
        ensures tokens { OnOk result ((value : Json) × IsFinite (float_is_finite real) real value
            × (self.new.writer.tokens ≡ self.old.writer.tokens ++ field_tokens (key.now, value))) }
    {
        if real.is_finite() {
            return self.finite(key, real);
        }
        self.none(key)
    }

    /// A real number; null where there is none, and of a NaN and an infinity.
    pub fn real(&mut self, key: &str, real: Option<f64>) -> Result<(), AllocError>
        ensures before { self.new.writer.before ≡ self.old.writer.before }
        ensures tokens { OnOk result ((value : Json) × IsReal real value × (self.new.writer.tokens
            ≡ self.old.writer.tokens ++ field_tokens (key.now, value))) }
    {
        match real {
            Some(real) => self.number(key, real),
            None => self.none(key),
        }
    }

    /// Ends the object and the line.
    fn closed(self) -> Result<Vec<u8>, AllocError>
        ensures { IfOk result (λ text. text.items ≡ self.writer.before
            ++ (print (self.writer.tokens ++ end_object ∷ []) ++ 10 ∷ [])) }
    {
        let Line { mut writer, .. } = self;
        writer.end_object()?;
        let mut text = writer.into_inner();
        text.push(b'\n')?;
        Ok(text)
    }

    /// Ends the line; the text with it.
    pub fn end(self) -> Result<Vec<u8>, AllocError>
        ensures { IfOk result (λ text. (fields : List Field)
            → self.writer.tokens ≡ begin_object ∷ fields_tokens fields
            → text.items ≡ self.writer.before ++ line_of fields) }
    {
        self.closed()
    }
}
