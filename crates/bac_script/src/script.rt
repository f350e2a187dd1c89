//! The format of a script: how it is cut into lines, and what a line says.

pub(crate) mod flaw;
pub(crate) mod hexadecimal;
pub(crate) mod line;
pub(crate) mod lines;
pub(crate) mod number;
mod split;
mod stamp;
pub(crate) mod words;
