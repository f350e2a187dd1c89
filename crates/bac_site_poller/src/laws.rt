//! Laws of a site that is polled. Each function does nothing: what it ensures is the law.

ghost use Rattle.bac_site_poller.specs.SiteLaws.{AllHaveEnded, AskInTurn, BatchesCome, BatchesEnd};
ghost use Rattle.bac_site_poller.specs.SiteLaws.{BatchesWithin, BeginsUnasked, GoAlone};
ghost use Rattle.bac_site_poller.specs.SiteLaws.{KeepsToLimits};
ghost use Rattle.bac_site_poller.specs.SiteLaws.{LossesBringNone, OpenWithin, OthersNotHeeded};
ghost use Rattle.bac_site_poller.specs.SiteLaws.{PlacesComeFree};
ghost use Rattle.bac_site_poller.specs.SiteLaws.{RepeatsAreMarked, SendsAreDated, SiteRowsCame};
ghost use Rattle.bac_site_poller.specs.SiteLaws.{SiteSendsAsk, StaysWithin, StraysMayBe};
ghost use Rattle.bac_site_poller.specs.SiteLaws.{WantsWithin, WithinLimits};

/// A datagram changes nothing for a device that it isn't an answer of.
pub fn others_not_heeded()
    ensures { OthersNotHeeded }
{}

/// From where else an answer came is noticed of a device only where it may be so: no device of the
/// site is there.
pub fn strays_may_be()
    ensures { StraysMayBe }
{}

/// What comes, and time, leave no more open than may be.
pub fn stays_within()
    ensures { StaysWithin }
{}

/// What a site wants leaves no more open than may be.
pub fn wants_within()
    ensures { WantsWithin }
{}

/// Never more are open than may be, in all and at one IP address, whatever happens.
pub fn within_limits()
    ensures { WithinLimits }
{}

/// More are asked at an IP address only where fewer are than the limit that holds there then, which
/// falls where requests are lost.
pub fn keeps_to_limits()
    ensures { KeepsToLimits }
{}

/// While devices wait for a place among the requests in flight, a site waits for no longer than a
/// request has one.
pub fn places_come_free()
    ensures { PlacesComeFree }
{}

/// The poll of each device is what its own steps made of it, whatever other devices answer or
/// don't.
pub fn go_alone()
    ensures { GoAlone }
{}

/// Those that wait for their turn keep their order, and the first of them that has room is asked.
pub fn ask_in_turn()
    ensures { AskInTurn }
{}

/// Whatever happens, never more questions of a site are open than the limits say, and those stay as
/// they are.
pub fn open_within()
    ensures { OpenWithin }
{}

/// Each open question of a site that was sent again is marked so, and no other.
pub fn repeats_are_marked()
    ensures { RepeatsAreMarked }
{}

/// Each open question was sent as the clock told what stands at its device, by which its age is
/// told.
pub fn sends_are_dated()
    ensures { SendsAreDated }
{}

/// What a site sends is the question of the poll of a device, to that device.
pub fn site_sends_ask()
    ensures { SiteSendsAsk }
{}

/// What a site puts is what the poll of a device makes of a datagram that came, and answers its
/// question, which had been sent to it before; or of none that came.
pub fn site_rows_came()
    ensures { SiteRowsCame }
{}

/// What no answer makes of a device's poll, or the end of a log's poll, has no record, no gap and
/// no epoch of a log.
pub fn losses_bring_none()
    ensures { LossesBringNone }
{}

/// When a site has ended, so have all of its devices, and none is left out.
pub fn all_have_ended()
    ensures { AllHaveEnded }
{}

/// What a site puts in one transaction is the rows of at most 64 replies, in order, each of which
/// came in answer to a question that had been sent before, or of none.
pub fn batches_come()
    ensures { BatchesCome }
{}

/// Nothing is lost or made up by the batches of a site, and never more of its questions are open
/// than the limits say.
pub fn batches_within()
    ensures { BatchesWithin }
{}

/// When a site whose rows are put in batches has ended, so have all of its devices.
pub fn batches_end()
    ensures { BatchesEnd }
{}

/// A site to which new devices were added alone has asked none of them.
pub fn begins_unasked()
    ensures { BeginsUnasked }
{}
