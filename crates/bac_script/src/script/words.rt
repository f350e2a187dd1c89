//! The words of a line, which one space separates.
ghost use Rattle.std.specs.Prelude.{◌≡◌, ◌≢◌, ◌≤◌, ◌∷◌, [], length, IfSome, IfNone};
ghost use Rattle.bac_wire.specs.OptionChain.{GivesSome};
ghost use Rattle.bac_script.specs.Script.Words.{words_of, HasTwo, text_in};

use crate::script::split::split_at;

/// The first word and what follows the space after it.
pub(crate) fn split_word(line: &[u8]) -> Option<(&[u8], &[u8])>
    ensures words { IfSome result (λ x. words_of line.now ≡ x.0.now ∷ words_of x.1.now) }
    ensures last { IfNone result (words_of line.now ≡ line.now ∷ []) }
{
    split_at(line, b' ')
}

/// The one word of a line.
pub(crate) fn last_word(line: &[u8]) -> Option<&[u8]>
    ensures found { IfSome result (λ x. words_of line.now ≡ x.now ∷ []) }
    ensures more { IfNone result (HasTwo (words_of line.now)) }
{
    match split_word(line) {
        Some(_) => None,
        None => Some(line),
    }
}

/// The first two words and what follows the space after them.
pub(crate) fn split_two(line: &[u8]) -> Option<(&[u8], &[u8], &[u8])>
    ensures words { IfSome result
        (λ x. words_of line.now ≡ x.0.now ∷ x.1.now ∷ words_of x.2.now) }
    ensures few { IfNone result (length (words_of line.now) ≤ 2) }
{
    let (first, rest) = split_word(line)?;
    let (second, rest) = split_word(rest)?;
    Some((first, second, rest))
}

/// The three words of a line.
pub(crate) fn three_words(line: &[u8]) -> Option<(&[u8], &[u8], &[u8])>
    ensures words { IfSome result
        (λ x. words_of line.now ≡ x.0.now ∷ x.1.now ∷ x.2.now ∷ []) }
    ensures other { IfNone result (length (words_of line.now) ≢ 3) }
{
    let (first, second, rest) = split_two(line)?;
    let third = last_word(rest)?;
    Some((first, second, third))
}

/// A word as a text, if it has an octet and its octets are UTF-8.
pub(crate) fn text_in(word: &[u8]) -> Option<&str>
    ensures { GivesSome (λ text. text.now) result (text_in word.now) }
{
    if word.is_empty() {
        return None;
    }
    match str::from_utf8(word) {
        Ok(text) => Some(text),
        Err(_) => None,
    }
}
