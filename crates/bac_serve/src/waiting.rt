//! How long a server waits for a datagram.

ghost use Rattle.std.specs.Prelude.{◌≡◌, if◌then◌else◌};
ghost use Rattle.std.specs.List.{list_any};
ghost use Rattle.bac_serve.specs.Waiting.{has_interval};

use bac_objects::ObjectLine;

/// A fifth of a second: the shortest interval of a log is five of it.
const SHORT_WAIT: u32 = 200;

/// How many milliseconds a receive of a server's port may wait at most: a fifth of a second if
/// one of the device's logs has an interval, so that its samples are taken while nobody asks; else
/// 0, which is without limit.
pub fn idle_wait(lines: &[ObjectLine]) -> u32
    ensures { result ≡ (if list_any has_interval lines.now then 200 else 0) }
{
    if has_intervals(lines) { SHORT_WAIT } else { 0 }
}

fn has_intervals(lines: &[ObjectLine]) -> bool
    ensures { result ≡ list_any has_interval lines.now }
{
    lines.iter().any(|line| has_interval(line))
}

/// A log that takes samples as time goes on.
fn has_interval(line: &ObjectLine) -> bool
    ensures { result ≡ has_interval line.now }
{
    match line {
        ObjectLine::Log { interval, .. } => *interval != 0,
        _ => false,
    }
}
