//! What a user needs who asks a device over one socket after another, proved from the public
//! contracts alone.

ghost use Rattle.bac_link.specs.Requests.{IsSendable};
ghost use Rattle.bac_client_tests.specs.Apart.{IsNoneOfBefore};

use bac_invoke_ids::late_answers_are_none;
use bac_link::{Received, Request, Transactions};

/// Whether what came over a port is taken for the answer to the first question over it. Where
/// invoke IDs go on, no answer to one of the last 255 questions over the ports before is.
pub fn is_taken(question: &Request, came: &[u8], retries: u8) -> bool
    requires { IsSendable question.now }
    ensures { IsNoneOfBefore came.now result }
{
    // For the prover alone: a law that the contract follows from.
    late_answers_are_none();
    let mut transactions = Transactions::new(retries);
    match transactions.begin(question) {
        Ok(_) => match transactions.receive(came) {
            Received::Done(_) => true,
            Received::Ignored => false,
        },
        Err(_) => false,
    }
}
