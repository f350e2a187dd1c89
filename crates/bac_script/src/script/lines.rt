//! The lines of a script.
ghost use Rattle.std.specs.Prelude.{◌≡◌, ◌∷◌, [], ◌<◌, length, IfSome, IfNone};
ghost use Rattle.std.specs.Str.Lines.{strip_carriage_return};
ghost use Rattle.bac_script.specs.Script.Lines.{parts};

use crate::script::split::split_at;

/// The text before the first line feed, and the text after it.
pub(crate) fn split_line(text: &[u8]) -> Option<(&[u8], &[u8])>
    ensures parts { IfSome result (λ x. parts text.now ≡ x.0.now ∷ parts x.1.now) }
    ensures shorter { IfSome result (λ x. length x.1.now < length text.now) }
    ensures last { IfNone result (parts text.now ≡ text.now ∷ []) }
{
    split_at(text, b'\n')
}

/// The line less one carriage return at its end.
pub(crate) fn without_return(line: &[u8]) -> &[u8]
    ensures { result.now ≡ strip_carriage_return line.now }
{
    match line {
        [front @ .., b'\r'] => front,
        _ => line,
    }
}
