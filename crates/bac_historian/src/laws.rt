//! Laws of a run over files.

ghost use Rattle.sqlite_wal.specs.Files.{image_at};
ghost use Rattle.bac_site_poller.specs.SiteLaws.{site_acts};
ghost use Rattle.bac_historian.specs.Laws.{KillLosesNothing, LosesNothingAt};

use crate::fault::Fault;
use crate::files::keep_file;
use crate::room::Room;
use bac_archive::puts_are_one;
use bac_batch::Batching;
use bac_device_poller::Status;
use bac_drive::{Clock, runs_put};
use bac_files::{DiskFiles, FileOf, Place};
use bac_keeping::Run;
use bac_plan::puts_keep_ids;
use bac_ports::Port;
use bac_site_poller::SitePoller;
use sqlite::Start;
use sqlite_disk::Disk;
use std::alloc::Global;
use std::io::Write;

/// Killed at any moment or not, a run loses nothing of an archive that was there: each device, each
/// log and each item is there still, and each beginning. Another database is left as it was.
pub fn kill_loses_nothing<G: Start, P: Port, C: Clock>()
    ensures { KillLosesNothing ⟦<FileOf<G> as Disk>⟧ (image_at G.Start)
        (site_acts P.sends P.receives_within C.reads) }
{
    puts_are_one();
    puts_keep_ids();
    runs_put::<Batching<SitePoller>, P, C>();
}

/// Whatever comes of a run over the file at a place, so it is of what is in the closed files.
pub fn keep_loses_nothing<F: Start, G: Start, P: Port, C: Clock, W: Write, V: Write>(
    alloc: Global,
    run: &Run,
    files: &mut DiskFiles<'_, F>,
    parts: &mut DiskFiles<'_, G>,
    place: &mut Place,
    room: &mut Room<'_, '_, '_, '_, P, C, W, V>,
) -> Result<Status, Fault>
    ensures { LosesNothingAt ⟦<FileOf<F> as Disk>⟧ (image_at F.Start) files.old files.new }
{
    kill_loses_nothing::<G, P, C>();
    keep_file(alloc, run, files, parts, place, room)
}
