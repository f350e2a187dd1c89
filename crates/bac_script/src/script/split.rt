//! A text split at the first of an octet: lines at a line feed, words at a space.
ghost use Rattle.std.specs.Prelude.{◌≡◌, ◌∷◌, [], ◌<◌, length, IfSome, IfNone, All, position};
ghost use Rattle.std.specs.Prelude.{false};
ghost use Rattle.std.specs.List.{slice_split};
ghost use Rattle.bac_script.specs.Script.Split.{is_octet};

/// The place of the first octet that is `mark`.
fn place(text: &[u8], mark: u8) -> Option<usize>
    ensures place { result ≡ position (is_octet mark) text.now }
    ensures none { IfNone result (All (λ b. is_octet mark b ≡ false) text.now) }
{
    text.iter().position(|b| *b == mark)
}

/// The text before the first octet that is `mark`, and the text after it.
pub(crate) fn split_at(text: &[u8], mark: u8) -> Option<(&[u8], &[u8])>
    ensures parts { IfSome result (λ x. slice_split (is_octet mark) text.now
        ≡ x.0.now ∷ slice_split (is_octet mark) x.1.now) }
    ensures shorter { IfSome result (λ x. length x.1.now < length text.now) }
    ensures last { IfNone result (slice_split (is_octet mark) text.now ≡ text.now ∷ []) }
{
    let at = place(text, mark)?;
    Some((&text[..at], &text[at + 1..]))
}
