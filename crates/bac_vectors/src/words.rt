//! The words of a line.

use crate::fault::Fault;
use hex::FromHexError;
use std::alloc::Global;
use std::str::{FromStr, SplitWhitespace};

/// The next word.
pub(crate) fn word<'a>(words: &mut SplitWhitespace<'a>) -> Result<&'a str, Fault> {
    match words.next() {
        Some(word) => Ok(word),
        None => Err(Fault::BadLine),
    }
}

/// The next word, which is a number in decimal digits.
pub(crate) fn number<N: FromStr>(words: &mut SplitWhitespace) -> Result<N, Fault>
where
    N::Err: Drop,
{
    match word(words)?.parse::<N>() {
        Ok(number) => Ok(number),
        Err(_) => Err(Fault::BadLine),
    }
}

/// The next two words, which are numbers in decimal digits.
pub(crate) fn pair<N: FromStr + Copy>(words: &mut SplitWhitespace) -> Result<(N, N), Fault>
where
    N::Err: Drop,
{
    Ok((number::<N>(words)?, number::<N>(words)?))
}

/// All other words: octets in hexadecimal digits, or one octet and how often it comes, as `07*253`.
pub(crate) fn octets(alloc: Global, words: &mut SplitWhitespace) -> Result<Vec<u8>, Fault> {
    let mut octets = Vec::new(alloc);
    for word in words {
        match word.split_once('*') {
            None => octets.extend_from_slice(&some(alloc, word)?)?,
            Some((octet, count)) => repeat(alloc, &mut octets, octet, count)?,
        }
    }
    Ok(octets)
}

/// The octets of one word.
fn some(alloc: Global, word: &str) -> Result<Vec<u8>, Fault> {
    match hex::decode(alloc, word) {
        Ok(octets) => Ok(octets),
        Err(FromHexError::OutOfMemory) => Err(Fault::Memory),
        Err(_) => Err(Fault::BadLine),
    }
}

fn repeat(alloc: Global, octets: &mut Vec<u8>, octet: &str, count: &str) -> Result<(), Fault> {
    let part = some(alloc, octet)?;
    let Ok(count) = count.parse::<u16>() else {
        return Err(Fault::BadLine);
    };
    for _ in 0..count {
        octets.extend_from_slice(&part)?;
    }
    Ok(())
}
