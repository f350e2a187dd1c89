//! How far a search for devices is.

ghost use Rattle.std.specs.Prelude.{◌≡◌, [], None, false};
ghost use Rattle.bac_query.specs.Hearing.{given_up, pending_with, pending_without, refused_by};

use arrayvec::ArrayVec;
use bac_ports::SocketFault;
use bac_wire::Address;

/// How many addresses may be pending: asked, and silent so far.
pub(crate) const MOST_PENDING: usize = 100;

/// How far a search is.
#[derive(Drop)]
pub(crate) struct Seeking {
    /// The addresses that were asked and haven't answered, but for those that were given up.
    pub(crate) pending: ArrayVec<Address, MOST_PENDING>,
    /// Whether an I-Am came.
    pub(crate) taken: bool,
    /// The first address to which a send was refused.
    pub(crate) refused: Option<Address>,
}

impl Seeking {
    /// Nothing was asked yet.
    pub(crate) fn new() -> Seeking
        ensures pending { result.pending.items ≡ [] }
        ensures taken { result.taken ≡ false }
        ensures refused { result.refused ≡ None }
    {
        Seeking {
            pending: ArrayVec::new(),
            taken: false,
            refused: None,
        }
    }

    /// A request was sent to this address.
    pub(crate) fn ask(&mut self, address: Address, sent: Result<(), SocketFault>)
        ensures pending { self.new.pending.items ≡ pending_with self.old.pending.items address }
        ensures taken { self.new.taken ≡ self.old.taken }
        ensures refused { self.new.refused ≡ refused_by self.old.refused sent address }
    {
        if self.pending.len() < MOST_PENDING {
            self.pending.push(address);
        }
        self.refused = refused_by(self.refused, sent, address);
    }

    /// A datagram came from this address.
    pub(crate) fn hear_from(&mut self, address: Address)
        ensures pending { self.new.pending.items ≡ pending_without self.old.pending.items address }
        ensures taken { self.new.taken ≡ self.old.taken }
        ensures refused { self.new.refused ≡ self.old.refused }
    {
        close(&mut self.pending, address);
    }

    /// The pending addresses count as silent, if there are so many as may be.
    pub(crate) fn give_up(&mut self)
        ensures pending { self.new.pending.items ≡ given_up self.old.pending.items }
        ensures taken { self.new.taken ≡ self.old.taken }
        ensures refused { self.new.refused ≡ self.old.refused }
    {
        if self.pending.len() >= MOST_PENDING {
            self.pending.clear();
        }
    }
}

/// Takes an address out.
fn close(pending: &mut ArrayVec<Address, MOST_PENDING>, address: Address)
    ensures { pending.new.items ≡ pending_without pending.old.items address }
{
    pending.retain(|asked| *asked != address);
}

/// The first refused address, when this send was made.
fn refused_by(
    before: Option<Address>,
    sent: Result<(), SocketFault>,
    address: Address,
) -> Option<Address>
    ensures { result ≡ refused_by before sent address }
{
    match (before, sent) {
        (Some(before), _) => Some(before),
        (None, Ok(())) => None,
        (None, Err(_)) => Some(address),
    }
}
