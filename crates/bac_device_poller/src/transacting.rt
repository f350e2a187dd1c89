//! What is open at a device.

ghost use Rattle.std.specs.Prelude.{◌≡◌};
ghost use Rattle.bac_link.specs.Transactions.{closed, is_awaited};

use bac_link::{Received, Timeout, Transactions};

/// Closes what is open, whatever repeats are left: none of them is sent.
pub fn close(transactions: &mut Transactions)
    ensures { transactions.new ≡ closed transactions.old }
{
    while let Timeout::Resend(_) = transactions.timeout() {}
}

/// Whether a datagram answers the open request.
pub fn awaits(transactions: &Transactions, octets: &[u8]) -> bool
    ensures { result ≡ is_awaited transactions.now.pending octets.now }
{
    let mut copy = transactions.copy();
    match copy.receive(octets) {
        Received::Done(_) => true,
        Received::Ignored => false,
    }
}
