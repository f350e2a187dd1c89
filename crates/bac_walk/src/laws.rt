//! Laws of what a walk delivers: on lists alone, and of runs over any link.
ghost use Rattle.std.specs.Prelude.{◌≡◌, ℕ, ◌≤◌, List};
ghost use Rattle.bac_wire.specs.Primitive.{Id};
ghost use Rattle.bac_link.specs.Delivery.{History, Moment};
ghost use Rattle.bac_link.specs.Growing.{Standing, StaysHonest};
ghost use Rattle.bac_link.specs.Honest.{IsHonest, asked_log};
ghost use Rattle.bac_link.specs.Path.{Path};
ghost use Rattle.bac_walk.specs.Came.{BroughtIsDelivered, CameIsDelivered, LostIsAsked};
ghost use Rattle.bac_walk.specs.Came.{NothingCame, OwnIsSaid, SaidIsTaken};
ghost use Rattle.bac_walk.specs.Flaws.{BadRepliesHaveFlaws, FlawsAreRefused};
ghost use Rattle.bac_walk.specs.Follows.{BroughtGoes, BroughtTells};
ghost use Rattle.bac_walk.specs.Growing.{GrowingIsDelivered, OursStayHonest};
ghost use Rattle.bac_walk.specs.Meant.{SaidMeans};
ghost use Rattle.bac_walk.specs.Near.{StaysInWindow, WindowsAreNear};
ghost use Rattle.bac_walk.specs.Rests.{RestsAll, RestResumes};
ghost use Rattle.bac_walk.specs.Transacted.{LateRepliesAreLeft, RepliesAnswer, TransactedIsBounded};
ghost use Rattle.bac_walk.specs.Transacted.{TransactedIsBrought};
ghost use Rattle.bac_walk.specs.Runs.{CollectedIsDelivered, RunsDeliver, RunsJoin};
ghost use Rattle.bac_walk.specs.Honest.{OursAreHonest, MomentsNeverGoBack, NumbersHaveOrdinals};
ghost use Rattle.bac_walk.specs.Honest.{RepliesAreLoggable};
ghost use Rattle.bac_walk.specs.Honest.{HonestIsDelivered};

use bac_link::LogLink;

/// With steps enough, a walk over a log that doesn't change delivers all that is held from there
/// on.
pub fn rests_all()
    ensures { RestsAll }
{}

/// Stopped after any record of a log that doesn't change, and resumed at the next number, a walk
/// delivers what was left.
pub fn rest_resumes()
    ensures { RestResumes }
{}

/// A walk stays near its log if all moments lie within half of the count from one ordinal on, as
/// does the ordinal where it begins, unless that is the oldest record.
pub fn windows_are_near()
    ensures { WindowsAreNear }
{}

/// What is delivered at moments within half of the count from one ordinal on, from an ordinal
/// there, ends there, as do the moments that are left: a run stays in its window.
pub fn runs_stay_in_their_window()
    ensures { StaysInWindow }
{}

/// What the answers of a run brought is delivered, from the ordinal where the run began: for a walk
/// from the oldest record, the oldest of its first batch.
pub fn collected_is_delivered()
    ensures { CollectedIsDelivered }
{}

/// Over every link: what a run brought while the link was ours is delivered.
pub fn runs_deliver<L: LogLink>()
    ensures { RunsDeliver (λ link id r M H. L.is_ours link id r M H) }
{}

/// Over every link: a run whose steps were all whole, and one that goes on from where it ended, are
/// together one run of as many steps, which brought what both brought.
pub fn runs_join<L: LogLink>()
    ensures { RunsJoin (λ link id r M H. L.is_ours link id r M H) }
{}

/// A reply of our own device is one by the standard.
pub fn own_is_said()
    ensures { OwnIsSaid }
{}

/// A walk near its log takes every reply by the standard.
pub fn said_is_taken()
    ensures { SaidIsTaken }
{}

/// What a reply by the standard means to a walk that asked for it: records from its place on, or
/// that none of its number is held, or that there is no more.
pub fn said_means()
    ensures { SaidMeans }
{}

/// Over every link, whoever answers: if the replies that came say what one log holds, what they
/// brought is delivered.
pub fn came_is_delivered<L: LogLink>()
    ensures { CameIsDelivered L.asks }
{}

/// The same of a run as `collect` and `deliver` tell it, with its items and its end.
pub fn brought_is_delivered<L: LogLink>()
    ensures { BroughtIsDelivered L.asks }
{}

/// What came by transactions, as `collect` and `deliver` tell it of those that they were given,
/// came over the link.
pub fn transacted_is_brought<L: LogLink>()
    ensures { TransactedIsBrought L.asks }
{}

/// Of such transactions at most two a step were begun.
pub fn transacted_is_bounded<L: LogLink>()
    ensures { TransactedIsBounded L.asks }
{}

/// Each reply of such a run answers its own question, whose invoke ID is the next after that of the
/// question before it.
pub fn replies_answer<L: LogLink>()
    ensures { RepliesAnswer L.asks }
{}

/// A reply that answers an earlier question of the run, as one that is late or was sent twice,
/// isn't taken for a later one before 256 transactions were begun.
pub fn late_replies_are_left<L: LogLink>()
    ensures { LateRepliesAreLeft L.asks }
{}

/// What came tells why: whoever answers, a run as `collect` and `deliver` tell it ended by its last
/// exchange, which told the fault, or that there is no more.
pub fn brought_tells_why<L: LogLink>()
    ensures { BroughtTells L.asks }
{}

/// What came goes on: whoever answers, the items of such a run cover each number from where it
/// began up to the next.
pub fn brought_goes_on<L: LogLink>()
    ensures { BroughtGoes L.asks }
{}

/// A run that is lost asked its last question once, and as often again as the retries say.
pub fn lost_is_asked<L: LogLink>()
    ensures { LostIsAsked L.asks }
{}

/// Over a link that brings no datagram nothing is delivered.
pub fn nothing_came<L: LogLink>()
    ensures { NothingCame L.asks }
{}

/// Over a link that is honest for the log of a walk, from any moments on, at those that a function
/// tells of it, or at those at which it is ours: a run delivers what the log holds when each reply
/// is given, and ends with no fault but a loss.
pub fn honest_is_delivered<L: LogLink>()
    ensures told { (moments : L → List Moment)
        → HonestIsDelivered L.asks (λ link M. moments link ≡ M) }
    ensures ours { (log : Id) (r : ℕ) (H : History)
        → HonestIsDelivered L.asks (λ link M. L.is_ours link log r M H) }
    ensures honest { (path : Path) (log : Id) (count : ℕ) (H : History) (low : ℕ)
        → HonestIsDelivered L.asks (λ link M. IsHonest L.asks (asked_log path log count) H low link
        M) }
{}

/// The same where the log goes on and any ask may be lost: over a link that stays honest for as
/// many asks as a run may make, from where the log stands, or from where any function tells that it
/// does, for as many asks as another tells, a run delivers what the log holds when each reply is
/// given, and ends with no fault but a loss.
pub fn growing_is_delivered<L: LogLink>()
    ensures told { (standing : L → Standing) (most : L → ℕ)
        → GrowingIsDelivered L.asks (λ more link at. (standing link ≡ at) × (more ≤ most link)) }
    ensures honest { (path : Path) (log : Id) (count low : ℕ)
        → GrowingIsDelivered L.asks
        (λ more link at. StaysHonest L.asks (asked_log path log count) low more link at) }
{}

/// A link is honest for each log for which it is ours.
pub fn ours_are_honest<L: LogLink>()
    ensures { OursAreHonest L.asks (λ link id r M H. L.is_ours link id r M H) }
{}

/// And it stays honest for it, for however many asks.
pub fn ours_stay_honest<L: LogLink>()
    ensures { OursStayHonest L.asks (λ link id r M H. L.is_ours link id r M H) }
{}

/// Over a link of ours that brought a reply, all that its log holds at the next moment is loggable.
pub fn replies_are_loggable<L: LogLink>()
    ensures { RepliesAreLoggable L.asks (λ link id r M H. L.is_ours link id r M H) }
{}

/// The moments of a link of ours never go back.
pub fn moments_never_go_back()
    ensures { MomentsNeverGoBack }
{}

/// Each number is that of an ordinal near a log, if enough was logged before what it holds.
pub fn numbers_have_ordinals()
    ensures { NumbersHaveOrdinals }
{}

/// The replies that a walk can't take are those with a flaw.
pub fn flaws_are_refused()
    ensures { FlawsAreRefused }
{}

/// Over every link: a walk that was told a bad reply had one, and something is wrong with it.
pub fn bad_replies_have_flaws<L: LogLink>()
    ensures { BadRepliesHaveFlaws L.asks }
{}
