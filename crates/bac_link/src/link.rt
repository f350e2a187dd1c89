//! Links that carry datagrams.

ghost use Rattle.std.specs.Prelude.{ℕ, ◌≤◌, List, Result, IsOk, OnErr};
ghost use Rattle.bac_wire.specs.Primitive.{Id};
ghost use Rattle.bac_apdu.specs.declared.service.extent.Extent.{Extent as AnyExtent};
ghost use Rattle.bac_link.specs.Delivery.{History, Moment};
ghost use Rattle.bac_link.specs.Links.{IsAsked, IsAskedOfNone, IsQuestion, RisesBy, our_question};
ghost use Rattle.bac_link.specs.Links.{TellsOurs};
ghost use Rattle.bac_link.specs.Moments.{AreServed};
ghost use Rattle.bac_link.specs.Path.{Path};
ghost use Rattle.bac_link.specs.declared.link.Lost.{Lost as LostOf};

use bac_wire::Datagram;

/// No answer came.
#[derive(Clone, Copy, Debug, PartialEq, Eq)]
pub struct Lost;

/// Carries a request to a device and brings its answer, or loses either.
///
/// A link is *honest* for a trend log if what comes over it to the questions for the log's records
/// says by the standard what one log holds; that is said of `asks`, and needs nothing of the link.
/// It is *ours* for a log if a device of this project answers: a question for the log's records (a
/// ReadRange of its Log_Buffer, as [`Transactions::begin`](crate::Transactions::begin) gives it, or
/// as a router hands it on) is answered as that log answers it at some moment, with as many records
/// as a reply of the link's size holds, and the reply arrives unchanged; or it is lost, and the
/// link counts a failure. The moments are those of one log that records and purges as it goes on,
/// and never go back. Nothing is promised of other requests, of when an answer comes, or of how
/// often one is lost.
///
/// Either is a premise of what is proved over a link. A socket is claimed to be neither: datagrams
/// there may be altered, repeated, or sent by someone else.
pub trait LogLink {
    /// How many asks have failed, up to the greatest `u64`, where the count stays.
    ghost failures: { Self → ℕ };

    /// For this log it is ours: with replies of at most so many octets, at these moments, the
    /// last of which stays, of a log with this history.
    ghost is_ours: { Self → Id → ℕ → List Moment → History → Type 0 };

    /// It knows no log of this identifier.
    ghost lacks: { Self → Id → Type 0 };

    /// No question for a log's records that goes by these networks is lost.
    ghost is_sure: { Self → Path → Type 0 };

    /// What questions leave as it is, if none of them is lost: for a device in memory, the device.
    ghost keeps: { Self → Self → Type 0 };

    /// What an ask is, whatever is asked: the link before it, the octets, the answer, the link
    /// after it. Each link names it itself; so what is proved over any link says what came over it.
    ghost asks: { Self → List ℕ → Result (List ℕ) LostOf → Self → Type 0 };

    /// Sends the datagram and waits for one that answers it.
    fn ask(&mut self, request: &[u8]) -> Result<Datagram, Lost>
        ensures asked { asks self.old request.now result self.new }
        ensures never_falls { failures self.old ≤ failures self.new }
        ensures lost { OnErr result (RisesBy 1 (failures self.old) (failures self.new)) }
        ensures ours { (id : Id) (r : ℕ) (M : List Moment) (H : History) (extent : AnyExtent)
            (path : Path) (invoke : ℕ) → is_ours self.old id r M H
            → IsQuestion id extent path invoke request.now
            → IsAsked (λ N. is_ours self.new id r N H)
            (our_question r M H id extent path) invoke result }
        ensures lacking { (id : Id) (extent : AnyExtent) (path : Path) (invoke : ℕ) →
            lacks self.old id → IsQuestion id extent path invoke request.now →
            IsAskedOfNone path invoke result × lacks self.new id }
        ensures stays_sure { (path : Path) → is_sure self.old path → is_sure self.new path }
        ensures answered { (id : Id) (extent : AnyExtent) (path : Path) (invoke : ℕ) →
            is_sure self.old path → IsQuestion id extent path invoke request.now → IsOk result }
        ensures kept { (id : Id) (extent : AnyExtent) (path : Path) (invoke : ℕ)
            → is_sure self.old path → IsQuestion id extent path invoke request.now
            → keeps self.old self.new };

    /// A reply has room for a record at least, and the moments are those of one log, whose history
    /// has their entries.
    ghost serves: { (link : Self) (id : Id) (r : ℕ) (M : List Moment) (H : History) →
        is_ours link id r M H → AreServed r M H };

    /// What an ask is says already what a link of ours brings.
    ghost tells_ours: { TellsOurs (λ old octets answer new. asks old octets answer new)
        (λ link id r M H. is_ours link id r M H) };

    /// What nothing happens to is kept.
    ghost keeps_itself: { (link : Self) → keeps link link };

    /// What is kept twice is kept.
    ghost keeps_on: { (a b c : Self) → keeps a b → keeps b c → keeps a c };
}
