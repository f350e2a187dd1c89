//! What a user of walks needs who asks what follows from what came, proved from public contracts
//! alone.

ghost use Rattle.std.specs.Prelude.{ℕ, ◌≡◌};
ghost use Rattle.bac_link.specs.Path.{towards};
ghost use Rattle.bac_walk.specs.declared.outcome.Ended.{Ended as EndedOf};
ghost use Rattle.bac_walk.specs.Came.{restarted};
ghost use Rattle.bac_walk.specs.Collects.{Goes};
ghost use Rattle.bac_walk.specs.Outcomes.{IsRunOf};
ghost use Rattle.bac_walk.specs.Place.{WalkPlace};
ghost use Rattle.bac_walk.specs.Told.{Told};

use bac_link::{LogLink, Transactions};
use bac_walk::{Outcome, Walk, brought_goes_on, brought_tells_why, collect};
use std::alloc::Global;

/// Over any link, what came to a walk tells by itself why the run ended, and that its items cover
/// each number from where it began up to the next.
pub fn what_came_tells<L: LogLink>(
    alloc: Global,
    link: &mut L,
    transactions: &mut Transactions,
    walk: &mut Walk,
    steps: u32,
) -> Outcome
    ensures { (n : ℕ) × (ended : EndedOf) × IsRunOf result.why steps n ended
        × ((here : WalkPlace) × (restarted here ≡ restarted walk.new)
        × Told L.asks (towards transactions.old.route) transactions.old.retries ended here
        link.new) × ((s : ℕ)
        → Goes walk.old.fresh walk.old.next s result.items.items walk.new.fresh result.next) }
{
    // For the prover alone, both: laws that the contract follows from.
    brought_tells_why::<L>();
    brought_goes_on::<L>();
    collect(alloc, link, transactions, walk, steps)
}
