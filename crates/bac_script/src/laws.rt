//! Laws of scripts. Each function does nothing: what it ensures is the law.

ghost use Rattle.std.specs.Prelude.{◌≡◌, ◌↔◌, ◌+◌, ◌++◌, ℕ, List, Ok, length};
ghost use Rattle.std.specs.Option.{IsSome};
ghost use Rattle.bac_script.specs.Flaw.{flaw_of};
ghost use Rattle.bac_script.specs.Replay.{play};
ghost use Rattle.bac_script.specs.Script.Line.{line_in};
ghost use Rattle.bac_script.specs.Session.{SessionState};
ghost use Rattle.bac_script.specs.declared.script.flaw.Flaw.TheVariants.{Place};
ghost use Rattle.bac_script.specs.declared.script.flaw.LineKind.{LineKind};

/// After lines without a fault the rest is played from what they have made, with its own numbers:
/// the text of all is the text of those lines and then that of the rest, and it ends as the rest
/// does.
pub fn texts_are_joined()
    ensures { (before after : List (List ℕ)) (n : ℕ) (s t : SessionState)
        → (play n s before).1 ≡ Ok t → ((play n s (before ++ after)).0
        ≡ (play n s before).0 ++ (play (n + length before) t after).0)
        × ((play n s (before ++ after)).1 ≡ (play (n + length before) t after).1) }
{}

/// A text is a line of a script if and only if nothing is wrong with it but its place: what is told
/// of a bad line agrees with what the lines of a script are.
pub fn lines_in_the_wrong_place_are_lines()
    ensures { (text : List ℕ) →
        ((kind : LineKind) × (flaw_of text ≡ Place kind)) ↔ IsSome (line_in text) }
{}
