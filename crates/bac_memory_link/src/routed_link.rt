//! A link through a router.

ghost use Rattle.std.specs.Prelude.{◌≡◌, ◌≤◌, ℕ, List, None, OnErr, OnOk, IsErr, IsOk};
ghost use Rattle.bac_wire.specs.Primitive.{Id};
ghost use Rattle.bac_apdu.specs.declared.service.extent.Extent.{Extent as AnyExtent};
ghost use Rattle.bac_apdu.specs.Npdu.{header_of};
ghost use Rattle.bac_apdu.specs.Route.{IsRoute};
ghost use Rattle.bac_link.specs.Delivery.{History, Moment};
ghost use Rattle.bac_link.specs.Links.{IsAsked, IsAskedOfNone, IsQuestion, RisesBy, our_question};
ghost use Rattle.bac_link.specs.Path.{Path};
ghost use Rattle.bac_memory_link.specs.Events.{one_more};
ghost use Rattle.bac_memory_link.specs.Routing.{handed_on, is_for, PassesOn};
ghost use Rattle.bac_memory_link.specs.Telling.{IsOurAsk};

use bac_apdu::{Frame, Npdu, Route, read_frame, read_npdu, write_datagram};
use bac_link::{LogLink, Lost};
use bac_wire::Datagram;

/// A link to a device behind a router, which stands for the router. A request for the place `far`,
/// where the device is, is asked over the inner link as one from the place `near`, where the client
/// is; its reply goes back from `near`, as one from `far`.
#[derive(Drop)]
pub struct RoutedLink<L> {
    inner: L,
    far: Route,
    near: Route,
    failures: u64,
}

impl<L: LogLink> RoutedLink<L> {
    /// A link through a router to the place `far`, from the place `near`.
    pub fn new(inner: L, far: Route, near: Route) -> RoutedLink<L>
        ensures inner { result.inner ≡ inner }
        ensures far { result.far ≡ far }
        ensures near { result.near ≡ near }
        ensures failures { result.failures ≡ 0 }
    {
        RoutedLink {
            inner,
            far,
            near,
            failures: 0,
        }
    }

    /// Hands a request on, and its reply back.
    fn pass(&mut self, request: &[u8]) -> Result<Datagram, Lost>
        ensures failures { self.new.failures ≡ self.old.failures }
        ensures far { self.new.far ≡ self.old.far }
        ensures near { self.new.near ≡ self.old.near }
        ensures idle { handed_on self.old.far self.old.near request.now ≡ None
            → IsErr result × (self.new.inner ≡ self.old.inner) }
        ensures passes { PassesOn L.asks self.old.far self.old.near
            (handed_on self.old.far self.old.near request.now) self.old.inner result
            self.new.inner }
        ensures ours { (id : Id) (r : ℕ) (M : List Moment) (H : History) (extent : AnyExtent)
            (path : Path) (invoke : ℕ) → L.is_ours self.old.inner id r M H
            → IsQuestion id extent path invoke request.now
            → IsAsked (λ N. L.is_ours self.new.inner id r N H)
            (our_question r M H id extent path) invoke result }
        ensures lacking { (id : Id) (extent : AnyExtent) (path : Path) (invoke : ℕ) →
            L.lacks self.old.inner id → IsQuestion id extent path invoke request.now →
            IsAskedOfNone path invoke result × L.lacks self.new.inner id }
    {
        let Some(inner) = handed_on(request, &self.far, &self.near) else {
            return Err(Lost);
        };
        let reply = match self.inner.ask(inner.octets()) {
            Ok(reply) => reply,
            Err(_) => return Err(Lost),
        };
        match handed_on(reply.octets(), &self.near, &self.far) {
            Some(datagram) => Ok(datagram),
            None => Err(Lost),
        }
    }
}

impl<L: LogLink> LogLink for RoutedLink<L> {
    ghost failures = { λ link. link.failures };

    ghost is_ours = { λ link id r M H. L.is_ours link.inner id r M H };

    ghost lacks = { λ link id. L.lacks link.inner id };

    ghost is_sure = { λ link path. ⊥ };

    ghost keeps = { λ a b. L.keeps a.inner b.inner };

    // What is passed on is asked behind it; so it is ours wherever that link is.
    ghost asks = { λ old octets answer new. PassesOn L.asks old.far old.near
        (handed_on old.far old.near octets) old.inner answer new.inner
        × IsOurAsk (λ id r M H. L.is_ours old.inner id r M H)
        (λ id r M H. L.is_ours new.inner id r M H) octets answer };

    /// Asks the inner link with `near` as SNET and SADR in place of `far`, and gives its reply with
    /// `far` as SNET and SADR in place of its DNET and DADR. `Lost` if the request isn't for `far`
    /// or has an SNET, and nothing is asked; if the inner link loses it; and if the reply isn't
    /// for `near` or has an SNET. One failure more each, apart from those of the inner link.
    fn ask(&mut self, request: &[u8]) -> Result<Datagram, Lost>
        ensures never_falls { self.old.failures ≤ self.new.failures }
        ensures lost { OnErr result (RisesBy 1 self.old.failures self.new.failures) }
        ensures ours { (id : Id) (r : ℕ) (M : List Moment) (H : History) (extent : AnyExtent)
            (path : Path) (invoke : ℕ) → L.is_ours self.old.inner id r M H
            → IsQuestion id extent path invoke request.now
            → IsAsked (λ N. L.is_ours self.new.inner id r N H)
            (our_question r M H id extent path) invoke result }
        ensures lacking { (id : Id) (extent : AnyExtent) (path : Path) (invoke : ℕ) →
            L.lacks self.old.inner id → IsQuestion id extent path invoke request.now →
            IsAskedOfNone path invoke result × L.lacks self.new.inner id }
        ensures stays_sure { (path : Path) → ⊥ → ⊥ }
        ensures answered { (id : Id) (extent : AnyExtent) (path : Path) (invoke : ℕ) →
            ⊥ → IsQuestion id extent path invoke request.now → IsOk result }
        ensures kept { (id : Id) (extent : AnyExtent) (path : Path) (invoke : ℕ) → ⊥
            → IsQuestion id extent path invoke request.now → L.keeps self.old.inner self.new.inner }
        ensures passes { PassesOn L.asks self.old.far self.old.near
            (handed_on self.old.far self.old.near request.now) self.old.inner result
            self.new.inner }
        ensures asked { PassesOn L.asks self.old.far self.old.near
            (handed_on self.old.far self.old.near request.now) self.old.inner result
            self.new.inner × IsOurAsk (λ id r M H. L.is_ours self.old.inner id r M H)
            (λ id r M H. L.is_ours self.new.inner id r M H) request.now result }
        // Its failures are its own, and its places stay.
        ensures failures { OnErr result (self.new.failures ≡ one_more self.old.failures) }
        ensures stays { OnOk result (self.new.failures ≡ self.old.failures) }
        ensures far { self.new.far ≡ self.old.far }
        ensures near { self.new.near ≡ self.old.near }
        ensures idle { handed_on self.old.far self.old.near request.now ≡ None
            → IsErr result × (self.new.inner ≡ self.old.inner) }
    {
        match self.pass(request) {
            Ok(datagram) => Ok(datagram),
            Err(Lost) => {
                self.failures = self.failures.saturating_add(1);
                Err(Lost)
            }
        }
    }

    ghost serves = { λ link id r M H h. L.serves link.inner id r M H h };

    ghost tells_ours = { λ old new octets answer id r M H extent path invoke ours is passed.
        passed.1 id r M H extent path invoke ours is };

    ghost keeps_itself = { λ link. L.keeps_itself link.inner };

    ghost keeps_on = { λ a b c h k. L.keeps_on a.inner b.inner c.inner h k };
}

/// Whether a header names this place as its destination, and no source.
fn is_for(header: &Npdu, dest: &Route) -> bool
    ensures { result ≡ is_for dest.now (header_of header.now) }
{
    let place = dest.far();
    let there = match header.dest {
        Some(far) => far.net == place.net && far.address == place.address,
        None => false,
    };
    there && header.source.is_none()
}

/// A datagram to the place `dest`, as it is handed on to it from the place `source`; `None` if it
/// isn't to that place or comes from a third one, and if it would be too long.
#[tactic(auto, unfolding(crate::specs::Routing::handed_on))]
fn handed_on(datagram: &[u8], dest: &Route, source: &Route) -> Option<Datagram>
    ensures handed { result ≡ handed_on dest.now source.now datagram.now }
    ensures dest { IsRoute dest.now }
    ensures source { IsRoute source.now }
{
    // For the prover alone: it tells that `dest` is a place behind a router.
    let _dest = dest.far();
    let place = source.far();
    let npdu = match read_frame(datagram) {
        Some(Frame::Unicast(npdu)) => npdu,
        _ => return None,
    };
    let (header, apdu) = read_npdu(npdu)?;
    if !is_for(&header, dest) {
        return None;
    }
    let handed = Npdu {
        network: header.network,
        reply: header.reply,
        priority: header.priority,
        dest: None,
        source: Some(place),
        hops: 0,
    };
    let mut out = Datagram::new();
    match write_datagram(&mut out, &handed, apdu) {
        Ok(()) => Some(out),
        Err(_) => None,
    }
}
