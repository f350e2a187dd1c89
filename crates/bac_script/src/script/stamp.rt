//! A moment in a script: YYYY-MM-DDTHH:MM:SS.hh

ghost use Rattle.std.specs.Prelude.{◌≡◌, ◌<◌, IfSome};
ghost use Rattle.bac_wire.specs.OptionChain.{GivesSome};
ghost use Rattle.bac_script.specs.Script.Stamp.{digit_in, pair_at, year_at, part_at, end_at};
ghost use Rattle.bac_script.specs.Script.Stamp.{stamp_in, checked};
ghost use Rattle.bac_wire.specs.Stamp.{moment};

use bac_wire::Stamp;

fn digit_in(c: u8) -> Option<u8>
    ensures value { result ≡ digit_in c }
    ensures bound { IfSome result (λ d. d < 10) }
{
    if c.is_ascii_digit() {
        Some(c - b'0')
    } else {
        None
    }
}

/// The number that two digits say, and the rest.
#[tactic(auto, unfolding(crate::specs::Script::Stamp::pair_at))]
fn pair_at(text: &[u8]) -> Option<(u8, &[u8])>
    ensures value { GivesSome (λ x. (x.0, x.1.now)) result (pair_at text.now) }
    ensures bound { IfSome result (λ x. x.0 < 100) }
{
    match text {
        [a, b, rest @ ..] => {
            let tens = digit_in(*a)?;
            let ones = digit_in(*b)?;
            Some((10 * tens + ones, rest))
        }
        _ => None,
    }
}

/// The number that four digits say, and the rest.
#[tactic(auto, unfolding(crate::specs::Script::Stamp::year_at))]
fn year_at(text: &[u8]) -> Option<(u16, &[u8])>
    ensures { GivesSome (λ x. (x.0, x.1.now)) result (year_at text.now) }
{
    let (century, rest) = pair_at(text)?;
    let (year, rest) = pair_at(rest)?;
    Some((100 * u16::from(century) + u16::from(year), rest))
}

/// The number that two digits after this character say, and the rest.
#[tactic(auto, unfolding(crate::specs::Script::Stamp::part_at))]
fn part_at(text: &[u8], mark: u8) -> Option<(u8, &[u8])>
    ensures { GivesSome (λ x. (x.0, x.1.now)) result (part_at mark text.now) }
{
    match text {
        [c, rest @ ..] if *c == mark => pair_at(rest),
        _ => None,
    }
}

/// Nothing is left.
fn end_at(text: &[u8]) -> Option<()>
    ensures { GivesSome (λ _. tt) result (end_at text.now) }
{
    match text {
        [] => Some(()),
        [_, ..] => None,
    }
}

/// The moment of these parts, if the calendar has it.
fn stamp_of(
    year: u16,
    month: u8,
    day: u8,
    hour: u8,
    minute: u8,
    second: u8,
    hundredth: u8,
) -> Option<Stamp>
    ensures { result ≡ checked (moment year month day hour minute second hundredth) }
{
    Stamp::new(year, month, day, hour, minute, second, hundredth)
}

/// The moment that a word says.
#[tactic(auto, unfolding(crate::proofs::Opened::stamp))]
pub(crate) fn stamp_in(word: &[u8]) -> Option<Stamp>
    ensures { result ≡ stamp_in word.now }
{
    let (year, rest) = year_at(word)?;
    let (month, rest) = part_at(rest, b'-')?;
    let (day, rest) = part_at(rest, b'-')?;
    let (hour, rest) = part_at(rest, b'T')?;
    let (minute, rest) = part_at(rest, b':')?;
    let (second, rest) = part_at(rest, b':')?;
    let (hundredth, rest) = part_at(rest, b'.')?;
    end_at(rest)?;
    stamp_of(year, month, day, hour, minute, second, hundredth)
}
