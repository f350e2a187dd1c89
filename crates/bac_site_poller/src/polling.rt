//! Devices that are polled over a port, to an archive.

ghost use Rattle.std.specs.Prelude.{IfErr, OnOk};
ghost use Rattle.sqlite.specs.Held.{state};
ghost use Rattle.sqlite.specs.State.{HasCleanDisk, Survives};
ghost use Rattle.bac_archive.specs.Schema.{HasArchive};
ghost use Rattle.bac_drive.specs.Happens.{Leaves, Runs, StaysSettled, Stops, scene};
ghost use Rattle.bac_site_poller.specs.SiteLaws.{site_acts};

use crate::site::SitePoller;
use bac_batch::Batching;
use bac_drive::{Clock, Fault, drive};
use bac_ports::Port;
use sqlite::{Alter, Connection};
use std::alloc::Global;
use std::io::Write;

/// Polls the devices of a site to their end, whose rows are put in batches. What is done is events
/// of which the laws of this crate and of bac_batch speak.
pub fn poll_devices<P: Port, C: Clock, S: Alter, W: Write, V: Write>(
    alloc: Global,
    site: &mut Batching<SitePoller>,
    port: &mut P,
    clock: &mut C,
    conn: &mut Connection<S>,
    output: &mut W,
    errors: &mut V,
) -> Result<(), Fault>
    requires { HasCleanDisk (state S.Store conn.old)
        → HasArchive (state S.Store conn.old).now.schema }
    ensures runs { HasCleanDisk (state S.Store conn.new)
        → OnOk result (Runs
        (site_acts P.sends P.receives_within C.reads)
        (scene site.old port.old clock.old (state S.Store conn.old).now
        (W.contents output.old) (V.contents errors.old))
        (scene site.new port.new clock.new (state S.Store conn.new).now
        (W.contents output.new) (V.contents errors.new))) }
    ensures stops { HasCleanDisk (state S.Store conn.new)
        → IfErr result (Stops S.Store
        (site_acts P.sends P.receives_within C.reads)
        (scene site.old port.old clock.old (state S.Store conn.old).now
        (W.contents output.old) (V.contents errors.old))
        (scene site.new port.new clock.new (state S.Store conn.new).now
        (W.contents output.new) (V.contents errors.new)) (state S.Store conn.new).is_open) }
    ensures settled { StaysSettled (state S.Store conn.old) (state S.Store conn.new) result }
    ensures crash { Survives (state S.Store conn.old) (state S.Store conn.new)
        (Leaves
        (site_acts P.sends P.receives_within C.reads)
        (scene site.old port.old clock.old (state S.Store conn.old).now
        (W.contents output.old) (V.contents errors.old))) }
{
    drive(alloc, site, port, clock, conn, output, errors)
}
