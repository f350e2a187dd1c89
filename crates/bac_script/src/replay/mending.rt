//! The line with which a script's device can't be built.

ghost use Rattle.std.specs.Prelude.{◌≡◌, None, IfSome, option_and_then};
ghost use Rattle.std.specs.Str.Lines.{lines};
ghost use Rattle.bac_script.specs.Reason.{AreNumbers, IsReason, IsUnbuilt, IsUnfitLine, described};
ghost use Rattle.bac_script.specs.Reason.{is_of, number_of, others_of, rival_of};
ghost use Rattle.bac_script.specs.Script.Words.{words_of};

use crate::configuration::described_before_events;
use crate::replay::fault::{Reason, Refused, ReplayFault, UnfitLine};
use crate::script::flaw::first_word;
use crate::script::line::kind_in;
use crate::script::lines::{split_line, without_return};
use crate::script::number::u32_in;
use crate::script::words::split_word;
use bac_device::{BuildFault, LineId, Misfit, misfit};
use std::alloc::Global;

/// The line with which the device that a script describes can't be built; `None` if it can be, or
/// if memory runs out.
fn misfit_in(alloc: Global, script: &[u8]) -> Option<Misfit>
    ensures { IfSome result (IsUnfitLine (described None (lines script.now))) }
{
    let configuration = described_before_events(alloc, script)??;
    misfit(
        alloc,
        &configuration.device,
        configuration.objects.as_slice(),
    )
}

/// Whether a line begins with the kind and the instance of this one.
fn is_of(id: LineId, line: &[u8]) -> bool
    ensures { result ≡ is_of id (words_of line.now) }
{
    let Some((kind, rest)) = split_word(line) else {
        return false;
    };
    let (instance, _) = first_word(rest);
    kind_in(kind) == Some(id.object_type) && u32_in(instance) == Some(id.instance)
}

/// The number of the line that begins so, behind this many others.
fn number_of(script: &[u8], id: LineId, others: usize) -> Option<usize>
    ensures { result ≡ number_of id others 1 (lines script.now) }
{
    let mut rest = script;
    let mut number = 1;
    let mut left = others;
    while let Some((line, more)) = split_line(rest) {
        if is_of(id, without_return(line)) {
            if left == 0 {
                return Some(number);
            }
            left -= 1;
        }
        rest = more;
        number += 1;
    }
    if left == 0 && is_of(id, rest) {
        Some(number)
    } else {
        None
    }
}

/// The number of the line that begins as the one with this fault does, or has its name.
fn rival_in(script: &[u8], misfit: &Misfit) -> Option<usize>
    ensures { result ≡ option_and_then (λ id. number_of id 0 1 (lines script.now))
        (rival_of misfit.now.fault misfit.now.line misfit.now.namesake) }
{
    match misfit.fault {
        BuildFault::DuplicateId => number_of(script, misfit.line, 0),
        _ => number_of(script, misfit.namesake?, 0),
    }
}

/// How many lines begin so before the one with this fault.
fn others_of(fault: BuildFault) -> usize
    ensures { result ≡ others_of fault }
{
    match fault {
        BuildFault::DuplicateId => 1,
        _ => 0,
    }
}

/// Where the line with which a device can't be built stands in the text that describes it.
pub fn unfit_line(script: &[u8], misfit: Misfit) -> UnfitLine
    ensures misfit { result.misfit ≡ misfit }
    ensures numbers { AreNumbers (lines script.now) result }
{
    UnfitLine {
        misfit,
        number: number_of(script, misfit.line, others_of(misfit.fault)),
        rival: rival_in(script, &misfit),
    }
}

impl Refused {
    /// The fault of a script whose device can't be built.
    pub(crate) fn of_build(alloc: Global, script: &[u8], fault: BuildFault) -> Refused
        requires { IsUnbuilt (described None (lines script.now)) fault }
        ensures fault { result.fault ≡ ReplayFault.Build fault }
        ensures reason { IsReason script.now (ReplayFault.Build fault) result.reason }
    {
        let reason = match misfit_in(alloc, script) {
            Some(misfit) => Some(Reason::Device(unfit_line(script, misfit))),
            None => None,
        };
        Refused {
            fault: ReplayFault::Build(fault),
            reason,
        }
    }
}
