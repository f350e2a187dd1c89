//! A run.

ghost use Rattle.std.specs.Prelude.{◌≡◌, IfErr, IfOk, OnOk};
ghost use Rattle.sqlite.specs.Held.{state};
ghost use Rattle.sqlite.specs.State.{HasCleanDisk, Survives};
ghost use Rattle.bac_archive.specs.Schema.{HasArchive};
ghost use Rattle.bac_drive.specs.Happens.{StaysSettled};
ghost use Rattle.bac_site_poller.specs.SiteLaws.{site_acts};
ghost use Rattle.bac_keeping.specs.Keeping.{Halts, HaltsEarly, IsSet};
ghost use Rattle.bac_keeping.specs.Keeping.{Keeps, Remains, RemainsEarly, around};

use crate::naming::name_told;
use crate::opening::open_told;
use crate::run::{KeepFault, Run};
use bac_batch::Batching;
use bac_device_poller::Status;
use bac_drive::Clock;
use bac_plan::site_of;
use bac_ports::Port;
use bac_site_poller::{SitePoller, poll_devices};
use sqlite::{Alter, Connection};
use std::alloc::Global;
use std::io::Write;

// An archive is opened, what words name goes on record, and a site is made of what is told then.
fn begin<S: Alter>(
    alloc: Global,
    run: &Run,
    conn: &mut Connection<S>,
) -> Result<SitePoller, KeepFault>
    ensures set { HasCleanDisk (state S.Store conn.new)
        → IfOk result (IsSet run.now (state S.Store conn.old).now
        (state S.Store conn.new).now) }
    ensures archive { HasCleanDisk (state S.Store conn.new)
        → OnOk result (HasArchive (state S.Store conn.new).now.schema) }
    ensures committed { HasCleanDisk (state S.Store conn.new)
        → OnOk result ((state S.Store conn.new).committed ≡ (state S.Store conn.new).now) }
    ensures settled { StaysSettled (state S.Store conn.old) (state S.Store conn.new) result }
    ensures halts { HasCleanDisk (state S.Store conn.new)
        → IfErr result (HaltsEarly S.Store run.now conn.old conn.new) }
    ensures crash { Survives (state S.Store conn.old) (state S.Store conn.new)
        (RemainsEarly run.now (state S.Store conn.old).now) }
{
    let told = open_told(alloc, conn, run.moment.as_str())?;
    let told = name_told(alloc, conn, run.named.as_slice(), told)?;
    match site_of(alloc, told, &run.options) {
        Ok(site) => Ok(site),
        Err(why) => Err(KeepFault::Plan(why)),
    }
}

/// Opens an archive, or makes one where nothing is; puts on record what words name, in one
/// transaction; makes a site of all that is on record then, and polls that to its end. What comes
/// back is the status that it leaves.
pub fn keep_site<P: Port, C: Clock, S: Alter, W: Write, V: Write>(
    alloc: Global,
    run: &Run,
    port: &mut P,
    clock: &mut C,
    conn: &mut Connection<S>,
    output: &mut W,
    errors: &mut V,
) -> Result<Status, KeepFault>
    // There are events, which are what the site makes of what came, and lead from the archive with
    // what words name, the port, the clock and the texts before to those after.
    ensures keeps { HasCleanDisk (state S.Store conn.new)
        → IfOk result (Keeps (site_acts P.sends P.receives_within C.reads) run.now
        (around port.old clock.old (W.contents output.old) (V.contents errors.old))
        (around port.new clock.new (W.contents output.new) (V.contents errors.new))
        (state S.Store conn.old).now (state S.Store conn.new).now) }
    // Each fault says how far the run came, and what is left then.
    ensures halts { HasCleanDisk (state S.Store conn.new)
        → IfErr result (Halts S.Store (site_acts P.sends P.receives_within C.reads) run.now
        (around port.old clock.old (W.contents output.old) (V.contents errors.old))
        (around port.new clock.new (W.contents output.new) (V.contents errors.new))
        conn.old conn.new) }
    // All that it put is committed; and after a fault so is all that it left, if that shut nothing.
    ensures committed { HasCleanDisk (state S.Store conn.new)
        → OnOk result ((state S.Store conn.new).committed ≡ (state S.Store conn.new).now) }
    ensures settled { StaysSettled (state S.Store conn.old) (state S.Store conn.new) result }
    // Killed at any moment, it leaves what was there, or an archive of which the same is so.
    ensures crash { Survives (state S.Store conn.old) (state S.Store conn.new)
        (Remains (site_acts P.sends P.receives_within C.reads) run.now
        (around port.old clock.old (W.contents output.old) (V.contents errors.old))
        (state S.Store conn.old).now) }
{
    match begin(alloc, run, conn) {
        Ok(site) => {
            let mut site = Batching::new(alloc, site);
            match poll_devices(alloc, &mut site, port, clock, conn, output, errors) {
                Ok(()) => Ok(site.machine().status()),
                Err(why) => Err(KeepFault::Poll(why)),
            }
        }
        Err(why) => Err(why),
    }
}
