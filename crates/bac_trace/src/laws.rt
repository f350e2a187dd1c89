//! Laws of ports that tell. Each function does nothing: what it ensures is the law.

ghost use Rattle.bac_socket_notes.specs.Laws.{AsksAreBelow};

use crate::ports::TracedPort;
use bac_ports::Port;
use std::io::Write;

/// What is asked over a port that tells is asked over the port below, with the same answer.
pub fn asks_are_below<P: Port, T: Write>()
    ensures { AsksAreBelow (λ (traced : TracedPort P T). traced.port)
        ⟦<TracedPort<P, T> as Port>⟧.sends ⟦<TracedPort<P, T> as Port>⟧.receives P.sends
        P.receives }
{}
