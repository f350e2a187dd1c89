//! The form of a tool's output.

/// How a tool writes what it found.
#[derive(Clone, Copy, Debug)]
pub enum Form {
    /// In lines to be read.
    Lines,
    /// As CSV (RFC 4180): a row of names, and a row for each item.
    Csv,
    /// As JSON (RFC 8259): an object on a line of its own for each item.
    Json,
}
