//! Laws of what a link carries to a device and back. Each function does nothing: what it ensures is
//! the law.

ghost use Rattle.std.specs.Prelude.{false, ◌≡◌, ◌≤◌, ℕ, Option};
ghost use Rattle.bac_wire.specs.Primitive.{Id};
ghost use Rattle.bac_apdu.specs.Apdu.{Complex};
ghost use Rattle.bac_apdu.specs.Npdu.{Place};
ghost use Rattle.bac_apdu.specs.Route.{IsRoute, IsWay};
ghost use Rattle.bac_apdu.specs.declared.service.extent.Extent.{Extent as AnyExtent};
ghost use Rattle.bac_log.specs.Ack.{read_range_service};
ghost use Rattle.bac_log.specs.TrendLog.{IsLog, Log};
ghost use Rattle.bac_objects.specs.Sampling.{log_id};
ghost use Rattle.bac_device.specs.Answer.{records_ack, records_said};
ghost use Rattle.bac_device.specs.Logs.{question_octets};
ghost use Rattle.bac_device.specs.Reply.{datagram_to};
ghost use Rattle.bac_link.specs.Links.{HasReply, TellsOurs, question, reply_parameters};
ghost use Rattle.bac_link.specs.Path.{back, towards};
ghost use Rattle.bac_link.specs.Requests.{request_octets};
ghost use Rattle.bac_memory_link.specs.Ahead.{IsAhead};
ghost use Rattle.bac_memory_link.specs.Events.{IsAnswered};
ghost use Rattle.bac_memory_link.specs.Routing.{handed_on, PassesOn, RoutersHandOnQuestions};

use crate::direct_link::DirectLink;
use bac_link::LogLink;

/// A link's question for the records of a Trend Log is the one that a device answers by that log.
pub fn questions_are_the_devices()
    ensures { (source : Option Place) (invoke n : ℕ) (extent : AnyExtent)
        → request_octets (back (towards source)) invoke (question (log_id n) extent)
        ≡ question_octets source invoke n extent }
{}

/// What a device answers by a log is the reply of that log: the same ACK, and as a datagram
/// one that a client reads as it.
pub fn replies_are_the_devices()
    ensures ack { (limit invoke : ℕ) (id : Id) (extent : AnyExtent) (log : Log)
        → records_ack limit invoke id extent log
        ≡ Complex false invoke read_range_service (reply_parameters id log extent limit) }
    ensures datagram { (source : Option Place) (limit invoke : ℕ) (id : Id) (extent : AnyExtent)
        (log : Log) → IsWay source → IsLog log → 44 ≤ limit → limit ≤ 1476
        → HasReply limit log id extent (back (towards source)) invoke
        (datagram_to source (records_said limit invoke id extent log)) }
{}

/// What a device answers over a link straight to it, after the events before, says already that the
/// link is ours.
pub fn device_answers_tell_ours()
    ensures { TellsOurs
        (λ (old : DirectLink) octets answer (new : DirectLink).
        IsAnswered old.device.now old.events.now octets answer new.device.now new.events.now)
        (λ (link : DirectLink) id r M H. IsAhead link.device.now link.events.now id r M H) }
{}

/// A router in front of a link doesn't hide that: what it passes on says that the link is ours, if
/// the asks of the link behind it do.
pub fn routed_asks_tell_ours<L: LogLink>()
    ensures { (far near : Place) → IsRoute far → IsRoute near
        → TellsOurs L.asks (λ link id r M H. L.is_ours link id r M H)
        → TellsOurs (λ old octets answer new. PassesOn L.asks far near (handed_on far near octets)
        old answer new) (λ link id r M H. L.is_ours link id r M H) }
{}

/// A question has a DNET or an SNET, and never both: what a router hands on was for the place
/// behind it, from no other network, and goes on as a question for no other network.
pub fn routers_hand_on_questions()
    ensures { RoutersHandOnQuestions }
{}
