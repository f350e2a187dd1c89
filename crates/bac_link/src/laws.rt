//! Laws of what a walk delivers, on lists alone, and of requests and links. Each function does
//! nothing: what it ensures is the law.

ghost use Rattle.std.specs.Prelude.{◌≡◌, ℕ, ◌≤◌, List};
ghost use Rattle.bac_wire.specs.Primitive.{Id};
ghost use Rattle.bac_link.specs.Client.{AnswersTellApart, CallsAreEvents};
ghost use Rattle.bac_link.specs.Delivery.{History, Moment};
ghost use Rattle.bac_link.specs.Growing.{Standing, StaysHonest, StaysHonestWhere, HistoriesGoOn};
ghost use Rattle.bac_link.specs.Growing.{HonestStaysHonest, StandingStaysHonest};
ghost use Rattle.bac_link.specs.Honest.{IsHonest, IsHonestWhere, HonestWhereItStands, asked_log};
ghost use Rattle.bac_link.specs.Laws.{CanBeJoined, CanBeResumed, DeliversEachOnce};
ghost use Rattle.bac_link.specs.Links.{TellsOurs};
ghost use Rattle.bac_link.specs.Path.{Path};

use crate::link::LogLink;

/// What is delivered covers each number once, in rising order.
pub fn delivers_each_once()
    ensures { DeliversEachOnce }
{}

/// Stopped after any record and resumed at the next number, a walk delivers exactly the rest.
pub fn can_be_resumed()
    ensures { CanBeResumed }
{}

/// A walk, and another from where it stopped, deliver together what one walk delivers.
pub fn can_be_joined()
    ensures { CanBeJoined }
{}

/// Over every link: what an ask is says already what a link of ours brings.
pub fn asks_tell_ours<L: LogLink>()
    ensures { TellsOurs L.asks (λ link id r M H. L.is_ours link id r M H) }
{}

/// Where each ask is answered by the standard a link is honest, as long as it is asked: from the
/// moments on that any function tells of it, or at which it is ours. And where it is honest each
/// ask is so answered.
pub fn links_are_honest<L: LogLink>()
    ensures told { (moments : L → List Moment)
        → HonestWhereItStands L.asks (λ link M. moments link ≡ M) }
    ensures ours { (log : Id) (r : ℕ) (H : History)
        → HonestWhereItStands L.asks (λ link M. L.is_ours link log r M H) }
    ensures goes_on { (path : Path) (log : Id) (count : ℕ) (H : History) (low : ℕ)
        → IsHonestWhere L.asks (asked_log path log count) H low
        (λ link M. IsHonest L.asks (asked_log path log count) H low link M) }
{}

/// A link whose log goes on stays honest for so many asks more where each of them is answered by
/// the standard: from where any function tells that it stands, for as many asks as another tells.
/// One that is honest at moments known before stays honest, too.
pub fn links_stay_honest<L: LogLink>()
    ensures told { (standing : L → Standing) (most : L → ℕ)
        → StandingStaysHonest L.asks (λ more link at. (standing link ≡ at) × (more ≤ most link)) }
    ensures goes_on { (path : Path) (log : Id) (count low : ℕ)
        → StaysHonestWhere L.asks (asked_log path log count) low
        (λ more link at. StaysHonest L.asks (asked_log path log count) low more link at) }
    ensures honest { HonestStaysHonest L.asks }
{}

/// Each history goes on to one that has the entries of any moments.
pub fn histories_go_on()
    ensures { HistoriesGoOn }
{}

/// `receive` and `timeout` are the steps of the client, which an exchange over a port runs, too.
pub fn calls_are_events()
    ensures { CallsAreEvents }
{}

/// A datagram answers one request at most of fewer than 256 that were begun in a row: one that was
/// sent for an earlier one isn't taken.
pub fn answers_tell_requests_apart()
    ensures { AnswersTellApart }
{}
