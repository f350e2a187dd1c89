//! Steps of a walk over a link.
ghost use Rattle.std.specs.Prelude.{[], ◌∷◌, ℕ, ◌≡◌, ◌+◌, ◌≤◌, List, length, true, false, OnErr};
ghost use Rattle.bac_link.specs.declared.item.Item.{Item};
ghost use Rattle.bac_walk.specs.Collects.{FoundTurn, FoundStep, MissingTurn, MissingStep, Goes};
ghost use Rattle.bac_walk.specs.Collects.{our_log, started_at, losses_of, yield};
ghost use Rattle.bac_walk.specs.Collects.{turn_items, asks_next, finished, Collected, step_items};
ghost use Rattle.bac_walk.specs.Collects.{step_ended, is_fresh_after};
ghost use Rattle.bac_link.specs.Delivery.{History, Moment, DeliversTo, now};
ghost use Rattle.bac_link.specs.Path.{towards};
ghost use Rattle.bac_link.specs.Laws.{after_answers};
ghost use Rattle.bac_walk.specs.Near.{IsNear, IsNearStep};
ghost use Rattle.bac_walk.specs.Turned.{IsTurned};
ghost use Rattle.bac_walk.specs.Rests.{rest, IsRest};
ghost use Rattle.bac_log.specs.TrendLog.{sequence_number};
ghost use Rattle.bac_link.specs.Heard.{heard_in};
ghost use Rattle.bac_walk.specs.Replied.{IsSame, progress_of, step_of};
ghost use Rattle.bac_walk.specs.Spelled.{data_held, records_from};
ghost use Rattle.bac_walk.specs.Told.{Told, ToldTurn};
ghost use Rattle.bac_walk.specs.Came.{Came, Brought, walk_over, reaching_by};
ghost use Rattle.bac_walk.specs.Transacted.{TurnBy, BroughtBy, asked, spare, walk_by};
ghost use Rattle.bac_walk.specs.Growing.{DeliversGrowing};
ghost use Rattle.bac_walk.specs.Honest.{DeliversSaid};
ghost use Rattle.bac_walk.specs.Walks.{IsTakenFrom};

use crate::batch::Batch;
use crate::outcome::{BadReply, Step, WalkFault};
use crate::read::{ack_parameters, items_of, place_of};
use crate::reply::{Replied, Reply, Turned, Verdict};
use crate::walk::{Walk, numbered_from};
use bac_link::{ExchangeFault, LogLink, Transactions, exchange};
use bac_wire::Datagram;

impl Walk {
    // What an answer means: a reply that brings records stays as it came.
    fn hear(&mut self, datagram: Datagram) -> Result<Turned, BadReply>
        ensures { IsTakenFrom self.old (heard_in self.old.log datagram) (progress_of result)
            self.new }
    {
        let Some(parameters) = ack_parameters(datagram.octets()) else {
            return Err(BadReply);
        };
        match self.judge(parameters) {
            Ok(Verdict::Records { gap, first, items }) => {
                let place = place_of(datagram.octets(), first, items);
                Ok(Turned::Reply(Reply {
                    datagram,
                    gap,
                    first,
                    place,
                }))
            }
            Ok(Verdict::AskOldest) => Ok(Turned::AskOldest),
            Ok(Verdict::CaughtUp) => Ok(Turned::CaughtUp),
            Err(BadReply) => Err(BadReply),
        }
    }

    // Asks the next question, and takes its answer.
    fn turn<L: LogLink>(
        &mut self,
        link: &mut L,
        transactions: &mut Transactions,
    ) -> Result<Turned, WalkFault>
        ensures never_falls { L.failures link.old ≤ L.failures link.new }
        ensures retries { transactions.new.retries ≡ transactions.old.retries }
        ensures route { transactions.new.route ≡ transactions.old.route }
        ensures begun { transactions.new.begun ≤ transactions.old.begun + 1 }
        ensures fault { OnErr (progress_of result) (self.new ≡ self.old) }
        ensures asks { asks_next (progress_of result) ≡ true → self.new.next ≡ self.old.next }
        ensures log { self.new.log ≡ self.old.log }
        ensures count { self.new.count ≡ self.old.count }
        ensures sure { L.is_sure link.old (towards transactions.old.route)
            → L.is_sure link.new (towards transactions.new.route) }
        ensures kept { L.is_sure link.old (towards transactions.old.route)
            → L.keeps link.old link.new }
        ensures answered { (r : ℕ) (M : List Moment) (H : History)
            → L.is_sure link.old (towards transactions.old.route)
            → L.is_ours link.old self.old.log r M H → FoundTurn (progress_of result) }
        ensures lacking { L.lacks link.old self.old.log
            → MissingTurn (progress_of result) × L.lacks link.new self.old.log
            × (L.is_sure link.old (towards transactions.old.route)
            → FoundTurn (progress_of result)) }
        ensures told { ToldTurn L.asks (towards transactions.old.route) transactions.old.retries
            self.old (progress_of result) self.new link.new }
        ensures begins { transactions.new ≡ asked self.old transactions.old }
        ensures came { TurnBy L.asks transactions.old link.old self.old (progress_of result)
            self.new link.new }
        ensures goes { (s : ℕ) → Goes self.old.fresh self.old.next s
            (turn_items (progress_of result)) self.new.fresh self.new.next }
        ensures ours { (r : ℕ) (M : List Moment) (H : History) (s : ℕ)
            → L.is_ours link.old self.old.log r M H → self.old.next ≡ sequence_number s
            → (self.old.fresh ≡ false → IsNear s (now M))
            → IsTurned (λ N. L.is_ours link.new self.old.log r N H) (our_log r M H) s self.old
            (losses_of transactions.old.retries (L.failures link.old) (L.failures link.new))
            (progress_of result) self.new }
    {
        let question = self.question();
        let datagram = match exchange(link, transactions, &question) {
            Ok(datagram) => datagram,
            Err(ExchangeFault::Lost) => return Err(WalkFault::Lost),
            Err(ExchangeFault::Refused(refusal)) => return Err(WalkFault::Refused(refusal)),
            Err(ExchangeFault::BadReply) => return Err(WalkFault::BadReply),
            Err(ExchangeFault::TooLong) => unreachable!(),
        };
        match self.hear(datagram) {
            Ok(turned) => Ok(turned),
            Err(BadReply) => Err(WalkFault::BadReply),
        }
    }

    /// Brings one batch, or finds that there is none: at most two questions.
    pub fn step<L: LogLink>(
        &mut self,
        link: &mut L,
        transactions: &mut Transactions,
    ) -> Result<Step, WalkFault>
        ensures never_falls { L.failures link.old ≤ L.failures link.new }
        ensures retries { transactions.new.retries ≡ transactions.old.retries }
        ensures route { transactions.new.route ≡ transactions.old.route }
        ensures begun { transactions.new.begun ≤ transactions.old.begun + 2 }
        ensures fault { OnErr result (self.new.next ≡ self.old.next) }
        ensures log { self.new.log ≡ self.old.log }
        ensures count { self.new.count ≡ self.old.count }
        // Over a link that loses nothing, nothing is lost, and asking changes nothing.
        ensures sure { L.is_sure link.old (towards transactions.old.route)
            → L.is_sure link.new (towards transactions.new.route) }
        ensures kept { L.is_sure link.old (towards transactions.old.route)
            → L.keeps link.old link.new }
        ensures answered { (r : ℕ) (M : List Moment) (H : History) (s : ℕ)
            → L.is_sure link.old (towards transactions.old.route)
            → L.is_ours link.old self.old.log r M H → self.old.next ≡ sequence_number s
            → (self.old.fresh ≡ false → IsNearStep self.old.count s M) → FoundStep result }
        // Over a log that doesn't change it is one step of a walk of it.
        ensures resting { (r : ℕ) (m : Moment) (H : History) (s : ℕ)
            → L.is_sure link.old (towards transactions.old.route)
            → L.is_ours link.old self.old.log r (m ∷ []) H → self.old.next ≡ sequence_number s
            → (self.old.fresh ≡ false → IsNear s m)
            → IsRest (rest r self.old.count H m self.old.fresh s 1) (step_items result)
            self.new.next (step_ended result) }
        // A device without the log says so.
        ensures lacking { L.lacks link.old self.old.log
            → MissingStep result × L.lacks link.new self.old.log }
        ensures refused { L.lacks link.old self.old.log
            → L.is_sure link.old (towards transactions.old.route) → FoundStep result }
        // Over any link, the last exchange told why no batch came, and the items cover all from the
        // walk's number up to the new one.
        ensures told { Told L.asks (towards transactions.old.route) transactions.old.retries
            (step_ended result) self.new link.new }
        // Over any link: what came, and that the step is what these replies make.
        ensures brought { (came : List Came)
            × Brought (reaching_by L.asks transactions.old)
            (walk_over link.old self.old) 1 came (step_items result) (step_ended result)
            (walk_over link.new self.new) }
        // Each exchange is the next of the transactions, and none is open after it.
        ensures transacted { (came : List Came)
            × BroughtBy L.asks (walk_by link.old transactions.old self.old) 1 came
            (step_items result) (step_ended result) (walk_by link.new transactions.new self.new) }
        ensures goes { (s : ℕ)
            → Goes self.old.fresh self.old.next s (step_items result) self.new.fresh self.new.next }
        // So it does over a link of ours, if the walk is near at each answer.
        ensures near { (r : ℕ) (M : List Moment) (H : History) (s : ℕ)
            → L.is_ours link.old self.old.log r M H → self.old.next ≡ sequence_number s
            → (self.old.fresh ≡ false → IsNearStep self.old.count s M)
            → (b : ℕ) × (a : ℕ) × (t : ℕ) × (self.old.fresh ≡ false → b ≡ s)
            × (self.new.next ≡ sequence_number t) × DeliversTo H b (step_items result) t M a
            × L.is_ours link.new self.old.log r (after_answers a M) H }
        // Over a link that is honest for the log it delivers the next records that the log holds,
        // with the gap before them.
        ensures headline { DeliversSaid L.asks (towards transactions.old.route)
            (spare (step_ended result)) (walk_over link.old self.old) (step_items result)
            (step_ended result) (walk_over link.new self.new) }
        // So it does over one that stays honest while its log goes on, and may lose any ask.
        ensures growing { DeliversGrowing (reaching_by L.asks transactions.old)
            (walk_over link.old self.old) 1 (step_items result) (step_ended result)
            (walk_over link.new self.new) }
        // The walk is at ordinal s before the step, near its log, and at t after it.
        ensures ours { (r : ℕ) (M : List Moment) (H : History) (s : ℕ)
            → L.is_ours link.old self.old.log r M H → self.old.next ≡ sequence_number s
            → (self.old.fresh ≡ false → IsNearStep self.old.count s M)
            → (answers : List (List Item)) × (t : ℕ) × (self.new.next ≡ sequence_number t)
            × Collected (our_log r M H) (started_at self.old.count self.old.fresh s) 1
            (losses_of transactions.old.retries (L.failures link.old) (L.failures link.new))
            (yield (step_items result) (step_ended result)) t answers
            × L.is_ours link.new self.old.log r (after_answers (length answers) M) H
            × (self.new.fresh ≡ is_fresh_after self.old.fresh result) }
    {
        decoded(self.reply(link, transactions))
    }

    // The same, but a reply with records is kept as its octets.
    pub(crate) fn reply<L: LogLink>(
        &mut self,
        link: &mut L,
        transactions: &mut Transactions,
    ) -> Result<Replied, WalkFault>
        ensures never_falls { L.failures link.old ≤ L.failures link.new }
        ensures retries { transactions.new.retries ≡ transactions.old.retries }
        ensures route { transactions.new.route ≡ transactions.old.route }
        ensures begun { transactions.new.begun ≤ transactions.old.begun + 2 }
        ensures fault { OnErr (step_of result) (self.new.next ≡ self.old.next) }
        ensures log { self.new.log ≡ self.old.log }
        ensures count { self.new.count ≡ self.old.count }
        ensures sure { L.is_sure link.old (towards transactions.old.route)
            → L.is_sure link.new (towards transactions.new.route) }
        ensures kept { L.is_sure link.old (towards transactions.old.route)
            → L.keeps link.old link.new }
        ensures answered { (r : ℕ) (M : List Moment) (H : History) (s : ℕ)
            → L.is_sure link.old (towards transactions.old.route)
            → L.is_ours link.old self.old.log r M H → self.old.next ≡ sequence_number s
            → (self.old.fresh ≡ false → IsNearStep self.old.count s M)
            → FoundStep (step_of result) }
        ensures lacking { L.lacks link.old self.old.log
            → MissingStep (step_of result) × L.lacks link.new self.old.log }
        ensures refused { L.lacks link.old self.old.log
            → L.is_sure link.old (towards transactions.old.route) → FoundStep (step_of result) }
        ensures told { Told L.asks (towards transactions.old.route) transactions.old.retries
            (step_ended (step_of result)) self.new link.new }
        ensures brought { (came : List Came)
            × Brought (reaching_by L.asks transactions.old)
            (walk_over link.old self.old) 1 came (step_items (step_of result))
            (step_ended (step_of result)) (walk_over link.new self.new) }
        ensures transacted { (came : List Came)
            × BroughtBy L.asks (walk_by link.old transactions.old self.old) 1 came
            (step_items (step_of result)) (step_ended (step_of result))
            (walk_by link.new transactions.new self.new) }
        ensures goes { (s : ℕ) → Goes self.old.fresh self.old.next s (step_items (step_of result))
            self.new.fresh self.new.next }
        ensures ours { (r : ℕ) (M : List Moment) (H : History) (s : ℕ)
            → L.is_ours link.old self.old.log r M H → self.old.next ≡ sequence_number s
            → (self.old.fresh ≡ false → IsNearStep self.old.count s M)
            → (answers : List (List Item)) × (t : ℕ) × (self.new.next ≡ sequence_number t)
            × Collected (our_log r M H) (started_at self.old.count self.old.fresh s) 1
            (losses_of transactions.old.retries (L.failures link.old) (L.failures link.new))
            (yield (step_items (step_of result)) (step_ended (step_of result))) t answers
            × L.is_ours link.new self.old.log r (after_answers (length answers) M) H
            × (self.new.fresh ≡ is_fresh_after self.old.fresh (step_of result)) }
    {
        // For the prover alone: one record is asked for at least.
        let _count = self.count();
        self.restart();
        let first = self.turn(link, transactions);
        if !asks_next(&first) {
            return finished(first);
        }
        finished(self.turn(link, transactions))
    }
}

// Whether there is a second question to ask.
fn asks_next(turned: &Result<Turned, WalkFault>) -> bool
    ensures { result ≡ asks_next (progress_of turned.now) }
{
    matches!(turned, Ok(Turned::AskOldest))
}

// The step that ends with this answer.
fn finished(turned: Result<Turned, WalkFault>) -> Result<Replied, WalkFault>
    ensures { step_of result ≡ finished (progress_of turned) }
{
    match turned {
        Ok(Turned::Reply(reply)) => Ok(Replied::Reply(reply)),
        Ok(Turned::CaughtUp) => Ok(Replied::CaughtUp),
        Ok(Turned::AskOldest) => Ok(Replied::CaughtUp),
        Err(fault) => Err(fault),
    }
}

// The same with the records of a reply decoded.
fn decoded(replied: Result<Replied, WalkFault>) -> Result<Step, WalkFault>
    ensures { IsSame (step_of replied) result }
{
    match replied {
        Ok(Replied::Reply(reply)) => Ok(Step::Batch(batch_of(&reply))),
        Ok(Replied::CaughtUp) => Ok(Step::CaughtUp),
        Err(fault) => Err(fault),
    }
}

// The records of a reply.
fn batch_of(reply: &Reply) -> Batch
    ensures gap { result.gap ≡ reply.now.gap }
    ensures entries { result.entries.items
        ≡ records_from reply.now.first (data_held reply.now.datagram) }
{
    Batch {
        gap: reply.gap,
        entries: numbered_from(reply.first, items_of(reply)),
    }
}
