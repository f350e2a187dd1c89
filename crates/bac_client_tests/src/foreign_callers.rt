//! A device that isn't ours, with REAL records in a longer encoding, two a reply: that the headline
//! of what came holds over it is proved from public contracts alone.

ghost use Rattle.std.specs.Prelude.{ℕ, ◌≡◌, ◌+◌, ◌<◌, ◌≤◌, ◌⊎◌, false, true, [], ◌∷◌, get_or, None};
ghost use Rattle.std.specs.Prelude.{IfSome};
ghost use Rattle.bac_log.specs.TrendLog.{sequence_number};
ghost use Rattle.bac_link.specs.Delivery.{DeliversTo};
ghost use Rattle.bac_link.specs.Path.{towards};
ghost use Rattle.bac_link.specs.Honest.{IsHonestWhere, asked_log};
ghost use Rattle.bac_link.specs.Standard.{IsCount};
ghost use Rattle.bac_walk.specs.declared.outcome.WalkFault.{WalkFault as WalkFaultOf};
ghost use Rattle.bac_walk.specs.declared.outcome.WalkFault.TheVariants as fault;
ghost use Rattle.bac_walk.specs.declared.outcome.Why.TheVariants as why;
ghost use Rattle.bac_client_tests.specs.declared.foreign_callers.ForeignLink.{
  ForeignLink as ForeignLinkOf,
};
ghost use Rattle.bac_client_tests.specs.Foreign.{all_held, held, history, log as log_one, said_to};
ghost use Rattle.bac_client_tests.specs.Foreign.{IsSaid};

use bac_link::{LogLink, Lost, Transactions};
use bac_walk::{Outcome, Walk, brought_is_delivered, collect, links_are_honest};
use bac_wire::{Datagram, ObjectId};
use std::alloc::Global;

/// Records 7 and 8; count and number have more octets than they need.
const FROM_7: [u8; 68] = [
    0x81, 0x0a, 0x00, 0x44, 0x01, 0x00, 0x30, 0x01, 0x1a, 0x0c, 0x05, 0x00, 0x00, 0x01, 0x19, 0x83,
    0x3a, 0x05, 0xc0, 0x4a, 0x00, 0x02, 0x5e, 0x0e, 0xa4, 0x7c, 0x05, 0x06, 0x01, 0xb4, 0x07, 0x00,
    0x00, 0x00, 0x0f, 0x1e, 0x2c, 0x41, 0xc8, 0x00, 0x00, 0x1f, 0x0e, 0xa4, 0x7c, 0x05, 0x06, 0x01,
    0xb4, 0x08, 0x00, 0x00, 0x00, 0x0f, 0x1e, 0x2c, 0x41, 0xcc, 0x00, 0x00, 0x1f, 0x2a, 0x04, 0x00,
    0x5f, 0x6a, 0x00, 0x07,
];

/// Records 9 and 10, likewise.
pub(crate) const FROM_9: [u8; 71] = [
    0x81, 0x0a, 0x00, 0x47, 0x01, 0x00, 0x30, 0x02, 0x1a, 0x0c, 0x05, 0x00, 0x00, 0x01, 0x19, 0x83,
    0x3a, 0x05, 0xc0, 0x4c, 0x00, 0x00, 0x00, 0x02, 0x5e, 0x0e, 0xa4, 0x7c, 0x05, 0x06, 0x01, 0xb4,
    0x09, 0x00, 0x00, 0x00, 0x0f, 0x1e, 0x2c, 0x41, 0xd0, 0x00, 0x00, 0x1f, 0x2a, 0x04, 0x00, 0x0e,
    0xa4, 0x7c, 0x05, 0x06, 0x01, 0xb4, 0x0a, 0x00, 0x00, 0x00, 0x0f, 0x1e, 0x2c, 0x41, 0xd4, 0x00,
    0x00, 0x1f, 0x5f, 0x6b, 0x00, 0x00, 0x09,
];

/// No records.
const NONE_FROM_11: [u8; 24] = [
    0x81, 0x0a, 0x00, 0x18, 0x01, 0x00, 0x30, 0x03, 0x1a, 0x0c, 0x05, 0x00, 0x00, 0x01, 0x19, 0x83,
    0x3a, 0x05, 0x00, 0x4a, 0x00, 0x00, 0x5e, 0x5f,
];

/// Records 7 and 8 again.
const FROM_OLDEST: [u8; 69] = [
    0x81, 0x0a, 0x00, 0x45, 0x01, 0x00, 0x30, 0x04, 0x1a, 0x0c, 0x05, 0x00, 0x00, 0x01, 0x19, 0x83,
    0x3a, 0x05, 0xc0, 0x4b, 0x00, 0x00, 0x02, 0x5e, 0x0e, 0xa4, 0x7c, 0x05, 0x06, 0x01, 0xb4, 0x07,
    0x00, 0x00, 0x00, 0x0f, 0x1e, 0x2c, 0x41, 0xc8, 0x00, 0x00, 0x1f, 0x0e, 0xa4, 0x7c, 0x05, 0x06,
    0x01, 0xb4, 0x08, 0x00, 0x00, 0x00, 0x0f, 0x1e, 0x2c, 0x41, 0xcc, 0x00, 0x00, 0x1f, 0x2a, 0x04,
    0x00, 0x5f, 0x6a, 0x00, 0x07,
];

/// A link to the device, which answers what it knows and loses all else.
#[derive(Drop)]
pub struct ForeignLink {
    failures: u64,
}

/// The octet at a place, and 0 where there is none.
pub(crate) fn octet_at(octets: &[u8], place: usize) -> u8
    ensures { result ≡ get_or octets.now place 0 }
{
    match octets.get(place) {
        Some(octet) => *octet,
        None => 0,
    }
}

/// What the device answers, if it does.
pub(crate) fn reply_to(question: &[u8]) -> Option<Datagram>
    ensures { result ≡ said_to question.now }
{
    if octet_at(question, 17) == 0x7e {
        return Datagram::of(&FROM_OLDEST);
    }
    // A number of one octet: of a longer one the first octet says nothing.
    if octet_at(question, 18) != 0x21 {
        return None;
    }
    match octet_at(question, 19) {
        7 => Datagram::of(&FROM_7),
        9 => Datagram::of(&FROM_9),
        11 => Datagram::of(&NONE_FROM_11),
        _ => None,
    }
}

/// It isn't claimed to be ours: what is proved over it follows from
/// what it answers.
impl LogLink for ForeignLink {
    ghost failures = { λ link. link.failures };

    ghost is_ours = { λ link id r M H. ⊥ };

    ghost lacks = { λ link id. ⊥ };

    ghost is_sure = { λ link path. ⊥ };

    ghost keeps = { λ a b. Unit {0} };

    ghost asks = { λ old octets answer new. IsSaid octets answer };

    fn ask(&mut self, request: &[u8]) -> Result<Datagram, Lost> {
        match reply_to(request) {
            Some(reply) => Ok(reply),
            None => {
                self.failures = self.failures.saturating_add(1);
                Err(Lost)
            }
        }
    }

    ghost serves = { λ link id r M H h. absurd h };

    ghost tells_ours = { λ old new octets answer id r M H extent path invoke h is asked. absurd h };

    ghost keeps_itself = { λ link. tt };

    ghost keeps_on = { λ a b c h k. tt };
}

/// Steps of a walk from number 7 on, however many and with however many retries, deliver the
/// records from there on that the device holds. Caught up, they delivered all of them.
pub fn records_of_another_device(
    alloc: Global,
    link: &mut ForeignLink,
    log: ObjectId,
    retries: u8,
    steps: u32,
) -> Option<Outcome>
    ensures { IfSome result (λ outcome. log ≡ log_one →
        ((count : ℕ) × (t : ℕ) × (outcome.next ≡ sequence_number t)
        × DeliversTo history 7 outcome.items.items t (held ∷ []) count)
        × (outcome.why ≡ why.CaughtUp → outcome.items.items ≡ all_held)) }
{
    // For the prover alone: the law that the contract follows from.
    brought_is_delivered::<ForeignLink>();
    let mut walk = Walk::from_number(log, 7)?;
    let mut transactions = Transactions::new(retries);
    Some(collect(alloc, link, &mut transactions, &mut walk, steps))
}

/// To each question of a walk of its log for two records or more, from whatever number on or for
/// the oldest, the device answers by the standard, or the ask is lost: the link is honest for its
/// log.
pub fn another_device_is_honest()
    ensures { (count low : ℕ) → IsCount count → 2 ≤ count
        → IsHonestWhere {S = ForeignLinkOf} (λ old octets answer new. IsSaid octets answer)
        (asked_log (towards None) log_one count) history low (λ link M. held ∷ [] ≡ M) }
{}

/// So a walk of its log that asks for two records or more, from any number, delivers what the log
/// holds from there on, and one from the oldest record what it holds from 7, its oldest, on: all of
/// it where it is caught up. The only fault is a loss.
pub fn walk_of_another_device(
    alloc: Global,
    link: &mut ForeignLink,
    transactions: &mut Transactions,
    walk: &mut Walk,
    steps: u32,
) -> Outcome
    ensures { (s low : ℕ) → transactions.old.route ≡ None → walk.old.log ≡ log_one
        → walk.old.next ≡ sequence_number s → 2 ≤ walk.old.count → low ≤ 7
        → (walk.old.fresh ≡ false → (low ≤ s) × (s < low + 2147483648))
        → ((b : ℕ) × (a : ℕ) × (t : ℕ) × (walk.old.fresh ≡ false → b ≡ s)
        × (walk.new.next ≡ sequence_number t)
        × DeliversTo history b result.items.items t (held ∷ []) a
        × (result.why ≡ why.CaughtUp → 10 < t)
        × (walk.old.fresh ≡ true → (result.items.items ≡ []) ⊎ (b ≡ 7)))
        × ((e : WalkFaultOf) → result.why ≡ why.Fault e → e ≡ fault.Lost) }
{
    // For the prover alone: the law that the contract follows from, and how many it may ask for.
    links_are_honest::<ForeignLink>();
    let _count = walk.count();
    collect(alloc, link, transactions, walk, steps)
}
