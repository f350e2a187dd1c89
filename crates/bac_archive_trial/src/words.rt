//! The words of a line. `-` stands for what isn't there.

use crate::why::Why;
use std::alloc::Global;
use std::str::{FromStr, SplitWhitespace};

/// The next word, if there is one.
pub(crate) fn maybe<'a>(words: &mut SplitWhitespace<'a>) -> Option<&'a str> {
    words.next()
}

/// The next word.
pub(crate) fn word<'a>(words: &mut SplitWhitespace<'a>) -> Result<&'a str, Why> {
    words.next().ok_or(Why::Line)
}

/// The next word, which is a number.
pub(crate) fn number<T: FromStr>(words: &mut SplitWhitespace) -> Result<T, Why>
where
    T::Err: Drop,
{
    word(words)?.parse::<T>().ok().ok_or(Why::Line)
}

/// A number, if there is one.
pub(crate) fn maybe_number<T: FromStr>(words: &mut SplitWhitespace) -> Result<Option<T>, Why>
where
    T::Err: Drop,
{
    let word = word(words)?;
    if word == "-" {
        return Ok(None);
    }
    Ok(Some(word.parse::<T>().ok().ok_or(Why::Line)?))
}

/// 1 or 0.
pub(crate) fn flag(words: &mut SplitWhitespace) -> Result<bool, Why> {
    match word(words)? {
        "0" => Ok(false),
        "1" => Ok(true),
        _ => Err(Why::Line),
    }
}

/// A text; of nothing, if there is none.
pub(crate) fn text(alloc: Global, words: &mut SplitWhitespace) -> Result<String, Why> {
    let word = word(words)?;
    let word = if word == "-" { "" } else { word };
    Ok(String::from_str(alloc, word)?)
}

/// A text, if there is one.
pub(crate) fn maybe_text(
    alloc: Global,
    words: &mut SplitWhitespace,
) -> Result<Option<String>, Why> {
    let word = word(words)?;
    if word == "-" {
        return Ok(None);
    }
    Ok(Some(String::from_str(alloc, word)?))
}

/// The octets of a text, if there is one.
pub(crate) fn maybe_octets(
    alloc: Global,
    words: &mut SplitWhitespace,
) -> Result<Option<Vec<u8>>, Why> {
    let word = word(words)?;
    if word == "-" {
        return Ok(None);
    }
    Ok(Some(Vec::from_slice(alloc, word.as_bytes())?))
}
