//! A link that may lose any ask, to a log of REALs that grows between any two, for ever: that it
//! stays honest, and that the headline holds over it, is proved from public contracts alone.

ghost use Rattle.std.specs.Prelude.{ℕ, ◌≡◌, ◌+◌, ◌*◌, ◌<◌, ◌≤◌, false, None, Some};
ghost use Rattle.bac_log.specs.TrendLog.{sequence_number};
ghost use Rattle.bac_link.specs.Growing.{StaysHonest};
ghost use Rattle.bac_link.specs.Standard.{IsCount};
ghost use Rattle.bac_link.specs.Path.{towards};
ghost use Rattle.bac_link.specs.Honest.{asked_log};
ghost use Rattle.bac_walk.specs.Growing.{most_asks, HasDelivered};
ghost use Rattle.bac_walk.specs.Told.{ended_of};
ghost use Rattle.bac_walk.specs.Came.{walk_over, reaching_by};
ghost use Rattle.bac_walk.specs.Collects.{yield};
ghost use Rattle.bac_client_tests.specs.declared.growing_callers.GrowingLink.{
  GrowingLink as GrowingLinkOf,
};
ghost use Rattle.bac_client_tests.specs.Foreign.{log as log_one};
ghost use Rattle.bac_client_tests.specs.Growing.{about, answer_to, logged_so_far, MayGrow};

use crate::foreign_callers::octet_at;
use bac_link::{LogLink, Lost, Transactions};
use bac_walk::{Outcome, Walk, collect};
use bac_wire::Datagram;
use std::alloc::Global;

/// A link to the device. It has logged so many records, one more at each ask, and loses each third
/// ask, and those that it doesn't know.
#[derive(Drop)]
pub struct GrowingLink {
    logged: u64,
    failures: u64,
    turn: u8,
}

/// The answer about a record: the record, if there are so many, or none.
fn about(logged: u64, invoke: u8, number: u8) -> Option<Datagram>
    ensures { result ≡ Some (about logged invoke number) }
{
    if number > 0 && u64::from(number) <= logged {
        return Datagram::of(&[
            0x81, 0x0a, 0x00, 0x2c, 0x01, 0x00, 0x30, invoke, 0x1a, 0x0c, 0x05, 0x00, 0x00, 0x01,
            0x19, 0x83, 0x3a, 0x05, 0xc0, 0x49, 0x01, 0x5e, 0x0e, 0xa4, 0x7c, 0x05, 0x06, 0x01,
            0xb4, 0x08, 0x00, 0x00, 0x00, 0x0f, 0x1e, 0x2c, 0x41, 0xc8, 0x00, 0x00, 0x1f, 0x5f,
            0x69, number,
        ]);
    }
    Datagram::of(&[
        0x81, 0x0a, 0x00, 0x18, 0x01, 0x00, 0x30, invoke, 0x1a, 0x0c, 0x05, 0x00, 0x00, 0x01, 0x19,
        0x83, 0x3a, 0x05, 0x00, 0x4a, 0x00, 0x00, 0x5e, 0x5f,
    ])
}

/// What the log answers once it has so many records, if it does.
fn answer_to(logged: u64, question: &[u8]) -> Option<Datagram>
    ensures { result ≡ answer_to logged question.now }
{
    let invoke = octet_at(question, 8);
    if octet_at(question, 17) == 0x7e {
        return about(logged, invoke, 1);
    }
    // A number of one octet: of a longer one the first octet says nothing.
    if octet_at(question, 18) != 0x21 {
        return None;
    }
    about(logged, invoke, octet_at(question, 19))
}

/// It isn't claimed to be ours: what is proved over it follows from what an ask is.
impl LogLink for GrowingLink {
    ghost failures = { λ link. link.failures };

    ghost is_ours = { λ link id r M H. ⊥ };

    ghost lacks = { λ link id. ⊥ };

    ghost is_sure = { λ link path. ⊥ };

    ghost keeps = { λ a b. Unit {0} };

    ghost asks = { λ old octets answer new. MayGrow old.logged octets answer new.logged };

    fn ask(&mut self, request: &[u8]) -> Result<Datagram, Lost> {
        self.logged = self.logged.saturating_add(1);
        self.turn = (self.turn % 3) + 1;
        if self.turn < 3 {
            if let Some(reply) = answer_to(self.logged, request) {
                return Ok(reply);
            }
        }
        self.failures = self.failures.saturating_add(1);
        Err(Lost)
    }

    ghost serves = { λ link id r M H h. absurd h };

    ghost tells_ours = { λ old new octets answer id r M H extent path invoke h is asked. absurd h };

    ghost keeps_itself = { λ link. tt };

    ghost keeps_on = { λ a b c h k. tt };
}

/// However many records are asked for, 1 to 100, whichever asks are lost, and however many records
/// are logged between any two, up to a hundred: the link stays honest for its log, for as many asks
/// as keep it within half of the count.
pub fn a_growing_log_stays_honest()
    ensures { (count more : ℕ) (link : GrowingLinkOf) → IsCount count
        → link.logged + 100 * more < 2147483648
        → StaysHonest {S = GrowingLinkOf}
        (λ old octets answer new. MayGrow old.logged octets answer new.logged)
        (asked_log (towards None) log_one count) 1 more link (logged_so_far link.logged) }
{}

/// So a walk of its log, from any number or from the oldest record, and however many it asks for at
/// a time, delivers what the log held when each reply came, each record once, and ends with no
/// fault but a loss.
pub fn walk_of_a_growing_log(
    alloc: Global,
    link: &mut GrowingLink,
    transactions: &mut Transactions,
    walk: &mut Walk,
    steps: u32,
) -> Outcome
    ensures { (s : ℕ) → transactions.old.route ≡ None → walk.old.log ≡ log_one
        → walk.old.next ≡ sequence_number s
        → link.old.logged + 100 * most_asks steps transactions.old.retries < 2147483648
        → (walk.old.fresh ≡ false → (1 ≤ s) × (s < 2147483649))
        → HasDelivered {S = GrowingLinkOf}
        (reaching_by (λ old octets answer new. MayGrow old.logged octets answer new.logged)
        transactions.old) 1 s (logged_so_far link.old.logged) (walk_over link.old walk.old)
        (yield result.items.items (ended_of result.why)) walk.new }
{
    // For the prover alone: how many records it may ask for.
    let _count = walk.count();
    collect(alloc, link, transactions, walk, steps)
}
