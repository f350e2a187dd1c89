//! A link straight to a device in memory.

ghost use Rattle.std.specs.Prelude.{◌≡◌, ◌≤◌, ℕ, [], List, None, IsOk, OnErr, drop, length};
ghost use Rattle.std.specs.Result.{result_ok};
ghost use Rattle.bac_wire.specs.Primitive.{Id};
ghost use Rattle.bac_apdu.specs.declared.service.extent.Extent.{Extent as AnyExtent};
ghost use Rattle.bac_objects.specs.Sampling.{log_id, log_of};
ghost use Rattle.bac_link.specs.Delivery.{History, Moment};
ghost use Rattle.bac_link.specs.Links.{IsAsked, IsAskedOfNone, IsQuestion, RisesBy, our_question};
ghost use Rattle.bac_link.specs.Path.{Path};
ghost use Rattle.bac_memory_link.specs.Ahead.{history_ahead, IsAhead, IsThere, Lacks, LiesAhead};
ghost use Rattle.bac_memory_link.specs.Ahead.{moments_ahead, placed_all};
ghost use Rattle.bac_memory_link.specs.Events.{datagram_in, failures_after, goes_on, happens};
ghost use Rattle.bac_memory_link.specs.Events.{IsAnswered, meets, played, told};
ghost use Rattle.bac_memory_link.specs.Telling.{IsOurAsk};
ghost use Rattle.bac_objects.specs.Sound.{IsSound};

use crate::event::LinkEvent;
use bac_apdu::{Frame, read_frame, read_npdu};
use bac_device::Device;
use bac_link::{LogLink, Lost};
use bac_wire::Datagram;

/// Lets an event happen to a device. One that is refused changes nothing; an answer and a loss are
/// none of the device's.
fn happen(device: &mut Device, event: &LinkEvent)
    ensures { device.new ≡ happens event.now device.old }
{
    match event {
        LinkEvent::Sample(instance) => {
            let _ = device.sample(*instance);
        }
        LinkEvent::Advance(moment) => {
            let _ = device.advance(*moment);
        }
        LinkEvent::Handle(datagram) => {
            let _ = device.handle(datagram.octets());
        }
        LinkEvent::Answer => {}
        LinkEvent::Lose => {}
    }
}

/// Plays events up to and with the next answer or loss: how many, and whether it is a loss. After
/// the last event comes an answer.
fn play(device: &mut Device, events: &[LinkEvent]) -> (usize, bool)
    ensures played { played device.old events.now
        ≡ record { device = device.new; rest = drop result.0 events.now; lost = result.1 } }
    ensures count { result.0 ≤ length events.now }
{
    let mut count = 0;
    for event in events {
        count += 1;
        match event {
            LinkEvent::Answer => return (count, false),
            LinkEvent::Lose => return (count, true),
            LinkEvent::Sample(_) => happen(device, event),
            LinkEvent::Advance(_) => happen(device, event),
            LinkEvent::Handle(_) => happen(device, event),
        }
    }
    (count, false)
}

/// Whether a datagram names a destination on another network, or on all.
#[tactic(auto, unfolding(crate::specs::Events::goes_on))]
fn goes_on(datagram: &[u8]) -> bool
    ensures { result ≡ goes_on datagram.now }
{
    let npdu = match read_frame(datagram) {
        Some(Frame::Unicast(npdu)) => npdu,
        Some(Frame::Broadcast(npdu)) => npdu,
        Some(Frame::Forwarded(_, npdu)) => npdu,
        Some(Frame::Function(_, _)) => return false,
        None => return false,
    };
    match read_npdu(npdu) {
        Some((header, _)) => header.dest.is_some(),
        None => false,
    }
}

/// A link straight to a device, which plays events between the answers. When they are used up, each
/// request is answered.
#[derive(Drop)]
pub struct DirectLink<'a> {
    device: &'a mut Device,
    events: &'a [LinkEvent],
    failures: u64,
}

impl<'a> DirectLink<'a> {
    /// A link to a device at which these events happen.
    pub fn new(device: &'a mut Device, events: &'a [LinkEvent]) -> DirectLink<'a>
        ensures same_reference { result.device.ghost_name ≡ device.entry.ghost_name }
        ensures device { result.device.now ≡ device.old }
        ensures events { result.events.now ≡ events.now }
        ensures failures { result.failures ≡ 0 }
        // It is ours for each log of the device, at the moments that the events lead to, however
        // many whole rounds of numbers further on.
        ensures ours { (n rounds : ℕ) → IsThere device.old n
            → LiesAhead rounds result.device.now result.events.now (log_id n) device.old.reply_size
            (placed_all rounds (moments_ahead device.old n events.now))
            (history_ahead rounds device.old n events.now) }
        // It lacks every other log.
        ensures lacks { (n : ℕ) → log_of device.old n ≡ None → Lacks result.device.now (log_id n) }
    {
        // For the prover alone: any call tells that the device is sound.
        let _clock = device.clock();
        DirectLink {
            device,
            events,
            failures: 0,
        }
    }

    /// Plays events up to the next answer, and gives it, unless it is lost or the device has none.
    /// A request to another network is lost, and nothing is played.
    fn tell(&mut self, request: &[u8]) -> Option<Datagram>
        ensures reply { result ≡ datagram_in
            (told (meets self.old.device.now self.old.events.now request.now) request.now).0 }
        ensures device { self.new.device.now
            ≡ (told (meets self.old.device.now self.old.events.now request.now) request.now).1 }
        ensures events { self.new.events.now
            ≡ (meets self.old.device.now self.old.events.now request.now).rest }
        ensures failures { self.new.failures ≡ self.old.failures }
        ensures same_reference { self.new.device.ghost_name ≡ self.old.device.ghost_name }
        ensures sound { IsSound (meets self.old.device.now self.old.events.now request.now).device }
    {
        if goes_on(request) {
            // For the prover alone: any call tells that the device is sound.
            let _clock = self.device.clock();
            return None;
        }
        let events = self.events;
        let (count, lost) = play(&mut *self.device, events);
        self.events = &events[count..];
        // For the prover alone: the device is sound also when the answer is lost.
        let _clock = self.device.clock();
        if lost {
            return None;
        }
        match self.device.handle(request) {
            Some(reply) => Some(reply.datagram),
            None => None,
        }
    }
}

impl<'a> LogLink for DirectLink<'a> {
    ghost use Rattle.std.specs.Prelude.{◌≡◌, [], None, refl};
    ghost use Rattle.std.proofs.Common.{◌∙◌};
    ghost use Rattle.bac_memory_link.specs.Ahead.{IsAhead, Lacks};

    ghost failures = { λ link. link.failures };

    ghost is_ours = { λ link id r M H. IsAhead link.device.now link.events.now id r M H };

    ghost lacks = { λ link id. Lacks link.device.now id };

    ghost is_sure = { λ link path. (link.events.now ≡ []) × (path.dest ≡ None) };

    ghost keeps = { λ a b. (a.device.now ≡ b.device.now)
        × (a.device.ghost_name ≡ b.device.ghost_name) };

    // The device's answer after the next events; so it is ours.
    ghost asks = { λ old octets answer new.
        IsAnswered old.device.now old.events.now octets answer new.device.now new.events.now
        × IsOurAsk (λ id r M H. IsAhead old.device.now old.events.now id r M H)
        (λ id r M H. IsAhead new.device.now new.events.now id r M H) octets answer };

    /// Plays events up to and with the next answer or loss, and lets the device answer. `Lost` if
    /// the answer is lost, and if the device doesn't answer the request: one failure more each. So
    /// is a request to another network, which has a DNET; then nothing is played.
    fn ask(&mut self, request: &[u8]) -> Result<Datagram, Lost>
        ensures never_falls { self.old.failures ≤ self.new.failures }
        ensures lost { OnErr result (RisesBy 1 self.old.failures self.new.failures) }
        ensures ours { (id : Id) (r : ℕ) (M : List Moment) (H : History) (extent : AnyExtent)
            (path : Path) (invoke : ℕ)
            → IsAhead self.old.device.now self.old.events.now id r M H
            → IsQuestion id extent path invoke request.now
            → IsAsked (λ N. IsAhead self.new.device.now self.new.events.now id r N H)
            (our_question r M H id extent path) invoke result }
        ensures lacking { (id : Id) (extent : AnyExtent) (path : Path) (invoke : ℕ) →
            Lacks self.old.device.now id → IsQuestion id extent path invoke request.now →
            IsAskedOfNone path invoke result × Lacks self.new.device.now id }
        ensures stays_sure { (path : Path) → (self.old.events.now ≡ []) × (path.dest ≡ None)
            → (self.new.events.now ≡ []) × (path.dest ≡ None) }
        ensures answered { (id : Id) (extent : AnyExtent) (path : Path) (invoke : ℕ)
            → (self.old.events.now ≡ []) × (path.dest ≡ None)
            → IsQuestion id extent path invoke request.now → IsOk result }
        ensures kept { (id : Id) (extent : AnyExtent) (path : Path) (invoke : ℕ)
            → (self.old.events.now ≡ []) × (path.dest ≡ None)
            → IsQuestion id extent path invoke request.now
            → (self.old.device.now ≡ self.new.device.now)
            × (self.old.device.ghost_name ≡ self.new.device.ghost_name) }
        ensures asked { IsAnswered self.old.device.now self.old.events.now request.now result
            self.new.device.now self.new.events.now
            × IsOurAsk (λ id r M H. IsAhead self.old.device.now self.old.events.now id r M H)
            (λ id r M H. IsAhead self.new.device.now self.new.events.now id r M H) request.now
            result }
        // What it makes of the device, and the answer, exactly.
        ensures reply { result_ok result ≡ datagram_in
            (told (meets self.old.device.now self.old.events.now request.now) request.now).0 }
        ensures device { self.new.device.now
            ≡ (told (meets self.old.device.now self.old.events.now request.now) request.now).1 }
        ensures events { self.new.events.now
            ≡ (meets self.old.device.now self.old.events.now request.now).rest }
        ensures failures { self.new.failures
            ≡ failures_after self.old.failures
            (told (meets self.old.device.now self.old.events.now request.now) request.now).0 }
        ensures same_reference { self.new.device.ghost_name ≡ self.old.device.ghost_name }
    {
        match self.tell(request) {
            Some(datagram) => Ok(datagram),
            None => {
                self.failures = self.failures.saturating_add(1);
                Err(Lost)
            }
        }
    }

    ghost serves = { λ link id r M H h. h.1.served };

    ghost tells_ours = { λ old new octets answer id r M H extent path invoke ahead is told.
        told.1 id r M H extent path invoke ahead is };

    ghost keeps_itself = { λ link. (refl, refl) };

    ghost keeps_on = { λ a b c h k. (h.0 ∙ k.0, h.1 ∙ k.1) };
}
