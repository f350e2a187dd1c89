//! What a walk of a trend log prints.

ghost use Rattle.std.specs.Prelude.{◌≡◌, [], ◌∷◌, ℕ, false, IfOk};
ghost use Rattle.bac_log.specs.TrendLog.{sequence_number};
ghost use Rattle.bac_link.specs.Delivery.{History, Moment};
ghost use Rattle.bac_link.specs.Path.{towards};
ghost use Rattle.bac_walk.specs.Near.{IsNear};
ghost use Rattle.bac_walk.specs.Rests.{rest};
ghost use Rattle.bac_script.specs.Walk.{missed_text, outcome_text, rested_text, start_of};
ghost use Rattle.bac_script.specs.Walk.{walk_text};

use crate::script::line::WalkWords;
use bac_device::Device;
use bac_link::{LogLink, Transactions};
use bac_memory_link::DirectLink;
use bac_query::{push_end, push_items};
use bac_walk::{Outcome, Walk, Why, collect};
use std::alloc::{AllocError, Global};
use std::marker::Model;

/// Transactions with devices of this network: they have no route.
#[derive(Drop)]
pub(crate) struct Local {
    transactions: Transactions,
}

impl Model for Local {
    ghost use Rattle.std.specs.Prelude.{◌≡◌, None};
    ghost use Rattle.bac_link.specs.declared.transactions.Transactions.{Transactions};

    ghost Value = { Transactions };

    ghost view = { λ local. local.transactions };

    ghost invariant = { λ local. local.transactions.route ≡ None };
}

impl Local {
    /// None begun, each to be repeated so many times.
    pub(crate) fn new(retries: u8) -> Local {
        Local {
            transactions: Transactions::new(retries),
        }
    }
}

/// The lines of what a walk delivered, and of its end.
fn print_outcome(alloc: Global, outcome: &Outcome) -> Result<Vec<u8>, AllocError>
    ensures { IfOk result (λ text. text.items ≡ outcome_text outcome.now) }
{
    let mut text = Vec::new(alloc);
    push_items(&mut text, outcome.items.as_slice())?;
    push_end(&mut text, outcome.why, outcome.next)?;
    Ok(text)
}

/// Walks over a link in at most so many steps, and tells what came. Without memory for all of it
/// nothing is told.
fn walk_over<L: LogLink>(
    alloc: Global,
    link: &mut L,
    transactions: &mut Transactions,
    walk: &mut Walk,
    steps: u32,
) -> Result<Vec<u8>, AllocError>
    ensures rests { (r : ℕ) (m : Moment) (H : History) (s : ℕ)
        → L.is_sure link.old (towards transactions.old.route)
        → L.is_ours link.old walk.old.log r (m ∷ []) H → walk.old.next ≡ sequence_number s
        → (walk.old.fresh ≡ false → IsNear s m)
        → IfOk result
        (λ text. text.items ≡ rested_text (rest r walk.old.count H m walk.old.fresh s steps)) }
    ensures missing { L.lacks link.old walk.old.log
        → L.is_sure link.old (towards transactions.old.route)
        → IfOk result (λ text. text.items ≡ missed_text walk.old.next steps) }
    ensures kept { L.is_sure link.old (towards transactions.old.route) → L.keeps link.old link.new }
    ensures route { transactions.new.route ≡ transactions.old.route }
{
    let outcome = collect(alloc, link, transactions, walk, steps);
    match outcome.why {
        Why::Memory => Err(AllocError),
        _ => print_outcome(alloc, &outcome),
    }
}

/// The walk that a line asks for, if it can begin.
fn begin(words: WalkWords) -> Option<Walk>
    ensures { result ≡ start_of words.log words.from }
{
    match words.from {
        Some(number) => Walk::from_number(words.log, number),
        None => Walk::oldest(words.log),
    }
}

/// What the line of a walk prints, while nothing happens to the device.
pub(crate) fn print_walk(
    alloc: Global,
    device: &mut Device,
    local: &mut Local,
    words: WalkWords,
) -> Result<Vec<u8>, AllocError>
    ensures text { IfOk result
        (λ text. text.items ≡ walk_text device.old words.log words.from words.steps) }
    ensures device { device.new ≡ device.old }
{
    let steps = words.steps;
    let Some(mut walk) = begin(words) else {
        let mut text = Vec::new(alloc);
        text.extend_from_slice(b"no walk\n")?;
        return Ok(text);
    };
    // For the prover alone: the next number is a sequence number.
    let _next = walk.next_number();
    let mut link = DirectLink::new(&mut *device, &[]);
    walk_over(alloc, &mut link, &mut local.transactions, &mut walk, steps)
}
