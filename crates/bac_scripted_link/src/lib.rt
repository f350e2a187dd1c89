//! A link that answers from a list: for tests of what asks over links.
#![tactic(auto)]

ghost use Rattle.std.specs.Prelude.{◌≡◌};

use bac_link::{LogLink, Lost};
use bac_wire::Datagram;

/// Answers each ask with the next of these datagrams, whatever is asked. An ask is lost if the next
/// one is empty or longer than a datagram can be, or if none is left.
#[derive(Clone, Copy, Debug, Drop)]
pub struct ScriptedLink<'a> {
    pub replies: &'a [&'a [u8]],
    /// How many asks were lost.
    pub failures: u64,
}

impl<'a> ScriptedLink<'a> {
    /// It answers with these, and has lost nothing yet.
    pub fn new(replies: &'a [&'a [u8]]) -> ScriptedLink<'a>
        ensures { result ≡ record { replies = replies.entry; failures = 0 } }
    {
        ScriptedLink {
            replies,
            failures: 0,
        }
    }
}

/// It is ours for no log, and nothing is said of what it answers: tests look at that.
impl LogLink for ScriptedLink<'_> {
    ghost failures = { λ link. link.failures };

    ghost is_ours = { λ link id r M H. ⊥ };

    ghost lacks = { λ link id. ⊥ };

    ghost is_sure = { λ link path. ⊥ };

    ghost keeps = { λ a b. Unit {0} };

    ghost asks = { λ old octets answer new. Unit {0} };

    fn ask(&mut self, _request: &[u8]) -> Result<Datagram, Lost> {
        if let [reply, rest @ ..] = self.replies {
            self.replies = rest;
            if !reply.is_empty() {
                if let Some(datagram) = Datagram::of(reply) {
                    return Ok(datagram);
                }
            }
        }
        self.failures = self.failures.saturating_add(1);
        Err(Lost)
    }

    ghost serves = { λ link id r M H h. absurd h };

    ghost tells_ours = { λ old new octets answer id r M H extent path invoke h is asked. absurd h };

    ghost keeps_itself = { λ link. tt };

    ghost keeps_on = { λ a b c h k. tt };
}
