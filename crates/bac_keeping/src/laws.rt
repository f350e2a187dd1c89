//! Laws of a run. Each function does nothing: what it ensures is the law.

ghost use Rattle.bac_keeping.specs.Idle.{IdleAsksNobody};
ghost use Rattle.bac_keeping.specs.Laws.{EndLosesNothing, FaultLosesNothing, KillLosesNothing};
ghost use Rattle.bac_site_poller.specs.SiteLaws.{site_acts};

use bac_archive::puts_are_one;
use bac_batch::Batching;
use bac_drive::{Clock, runs_put};
use bac_ports::Port;
use bac_site_poller::SitePoller;
use sqlite::Alter;

/// A run loses nothing that an archive had, whatever ends it: a kill, its own end, or a fault.
pub fn keep_loses_nothing<P: Port, C: Clock, S: Alter>()
    ensures killed { KillLosesNothing (site_acts P.sends P.receives_within C.reads) }
    ensures ended { EndLosesNothing (site_acts P.sends P.receives_within C.reads) }
    ensures halted { FaultLosesNothing S.Store (site_acts P.sends P.receives_within C.reads) }
{
    puts_are_one();
    runs_put::<Batching<SitePoller>, P, C>();
}

/// A run over an archive that has no device to poll sends nothing and prints nothing, and puts
/// nothing but what words name.
pub fn idle_asks_nobody<P: Port, C: Clock>()
    ensures { IdleAsksNobody (site_acts P.sends P.receives_within C.reads) }
{}
