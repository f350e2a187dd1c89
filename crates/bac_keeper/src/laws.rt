//! Laws of the tool. Each function does nothing: what it ensures is the law.

ghost use Rattle.sqlite_wal.specs.Files.{image_at};
ghost use Rattle.bac_ports.specs.Sockets.{socket_rules};
ghost use Rattle.bac_site_poller.specs.SiteLaws.{site_acts};
ghost use Rattle.bac_keeper.specs.Laws.{StopLosesNothing, ToolLosesNothing};

use bac_drive::Clock;
use bac_files::FileOf;
use bac_historian::kill_loses_nothing;
use bac_keeping::stop_loses_nothing as stopping_loses_nothing;
use bac_plan::puts_keep_ids;
use bac_ports::Sockets;
use sqlite::Start;
use sqlite_disk::Disk;

/// Whatever comes of `bac keep`, nothing is lost of an archive that its files held, and another
/// database is left as it was.
pub fn tool_loses_nothing<F: Start, G: Start, S: Sockets, C: Clock>()
    ensures { ToolLosesNothing (socket_rules S.opens S.closes S.Socket.sends S.Socket.receives
        S.Socket.receives_within) (site_acts S.Socket.sends S.Socket.receives_within C.reads)
        ⟦<FileOf<F> as Disk>⟧ (image_at F.Start) ⟦<FileOf<G> as Disk>⟧ (image_at G.Start) }
{
    kill_loses_nothing::<G, S::Socket, C>();
}

/// So it is of `bac keep --stop`.
pub fn stop_loses_nothing<F: Start>()
    ensures { StopLosesNothing ⟦<FileOf<F> as Disk>⟧ (image_at F.Start) }
{
    stopping_loses_nothing();
    puts_keep_ids();
}
