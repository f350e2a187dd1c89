//! Laws of a walk over a network. Each function does nothing: what it ensures is the law.

ghost use Rattle.bac_world.specs.Machine.{RunsTheClient};
ghost use Rattle.bac_world.specs.Runs.{WindowsStayNear, Withstands};
ghost use Rattle.bac_world.specs.Sources.{PacketsWerePut};

/// Whatever a network keeps, repeats or reorders, a walk over it delivers what the log held when it
/// answered, each record once, in rising order; each reply that it takes was put on the network by
/// the device, as its answer to the open request.
pub fn withstands_all()
    ensures { Withstands }
{}

/// A walk over a network stays near its log if all moments lie within half of the count from one
/// ordinal on, as does the ordinal where it begins, unless that is the oldest record.
pub fn windows_stay_near()
    ensures { WindowsStayNear }
{}

/// The client of a network runs the events that an exchange over a port runs, over the packets that
/// come to it: where its transactions are, and what was sent to the device, is what these events
/// say.
pub fn worlds_run_the_client()
    ensures { RunsTheClient }
{}

/// Nothing comes to a network from outside: each packet was put there by the client, or by the
/// device as its reply to a packet that came to it.
pub fn packets_were_put()
    ensures { PacketsWerePut }
{}
