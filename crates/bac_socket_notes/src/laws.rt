//! Laws of ports that note what comes. Each function does nothing: what it ensures is the law.

ghost use Rattle.bac_socket_notes.specs.Laws.{AsksAreBelow, LostHasStrays, NotesAreOfEvents};
ghost use Rattle.bac_socket_notes.specs.Laws.{StraysCame};

use crate::ports::HeedingPort;
use bac_ports::Port;

/// What is asked over a port that notes what comes is asked over the port below, with the same
/// answer.
pub fn asks_are_below<P: Port>()
    ensures { AsksAreBelow (λ (heeding : HeedingPort P). heeding.port)
        ⟦<HeedingPort<P> as Port>⟧.sends ⟦<HeedingPort<P> as Port>⟧.receives P.sends P.receives }
{}

/// Whatever is done over such a port, its note is that of what was sent and what came, in order.
pub fn notes_are_of_events<P: Port>()
    ensures { NotesAreOfEvents (λ (heeding : HeedingPort P). heeding.note)
        ⟦<HeedingPort<P> as Port>⟧.sends ⟦<HeedingPort<P> as Port>⟧.receives
        ⟦<HeedingPort<P> as Port>⟧.receives_within }
{}

/// What a note tells came since its question was first sent: how many datagrams, and the last of
/// them; and it tells how often the question was sent.
pub fn strays_came()
    ensures { StraysCame }
{}

/// Where an answer is lost, what came over a port that notes it doesn't answer: no other question
/// was sent since, and each datagram that came is another sender's, or isn't the answer.
pub fn lost_has_strays<P: Port>()
    ensures { LostHasStrays ⟦<HeedingPort<P> as Port>⟧.sends ⟦<HeedingPort<P> as Port>⟧.receives
        ⟦<HeedingPort<P> as Port>⟧.receives_within }
{}
