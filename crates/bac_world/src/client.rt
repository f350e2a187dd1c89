//! The client's side: what is asked, what an answer brings, and which packets are too old.

ghost use Rattle.std.specs.Prelude.{◌≡◌, ◌+◌, ◌≤◌, ◌++◌, nat_lt, vec_len, vec_capacity};
ghost use Rattle.bac_link.specs.Path.{towards};
ghost use Rattle.bac_link.specs.Requests.{next_invoke, request_octets};
ghost use Rattle.bac_link.specs.Transactions.{begun_with};
ghost use Rattle.bac_walk.specs.Walks.{items_in};
ghost use Rattle.bac_world.specs.Network.{question_of};

use bac_link::{Item, Transactions};
use bac_walk::{Batch, Walk};
use bac_wire::Datagram;

/// Opens the walk's question, and gives its datagram.
pub(crate) fn begin(transactions: &mut Transactions, walk: &Walk) -> Datagram
    ensures datagram { result ≡ request_octets (towards transactions.old.route)
        (next_invoke transactions.old.invoke) (question_of walk.now) }
    ensures opened { transactions.new ≡ begun_with (question_of walk.now) transactions.old }
{
    // In a list of one, since the prover doesn't take a request that is lent from a variable.
    let questions = [walk.question()];
    match transactions.begin(&questions[0]) {
        Ok(datagram) => datagram,
        Err(_) => unreachable!(),
    }
}

/// Keeps the items of a batch.
pub(crate) fn keep(items: &mut Vec<Item>, batch: &Batch)
    requires room { vec_len items.old + 101 ≤ vec_capacity items.old }
    ensures { items.new.items ≡ items.old.items ++ items_in batch.now }
{
    if let Some(gap) = batch.gap {
        items.push_reserved(Item::Gap {
            first: gap.first,
            before: gap.before,
        });
    }
    for numbered in batch.entries.as_slice() {
        items.push_reserved(Item::Logged {
            number: numbered.number,
            entry: numbered.entry,
        });
    }
}

/// Whether fewer than 256 later transactions have begun.
pub(crate) fn is_young(begun: u64, transaction: u64) -> bool
    ensures { result ≡ nat_lt begun (transaction + 256) }
{
    begun.saturating_sub(transaction) < 256
}
