//! A walk of a log behind a port, by what bac_client gives on.

ghost use Rattle.std.specs.Prelude.{◌≡◌, [], IfSome};

use bac_client::{ObjectId, Outcome, Port, Transactions, UdpLink, Walk, Why, collect};
use std::alloc::Global;

/// How often a question is asked again.
const RETRIES: u8 = 3;

/// The records of a log from a number on, in at most so many steps, over a port from the device at
/// an address; `None` for number 0 and for an object that is no trend log.
pub fn fetch<P: Port + Drop>(
    alloc: Global,
    port: P,
    peer: [u8; 6],
    log: ObjectId,
    from: u32,
    steps: u32,
) -> Option<Outcome>
    // Without steps nothing comes.
    ensures none { IfSome result
        (λ outcome. steps ≡ 0 → (outcome.items.items ≡ []) × (outcome.why ≡ Why.StepLimit)) }
{
    let mut link = UdpLink::new(port, peer);
    let mut walk = Walk::from_number(log, from)?;
    let mut transactions = Transactions::new(RETRIES);
    Some(collect(alloc, &mut link, &mut transactions, &mut walk, steps))
}
