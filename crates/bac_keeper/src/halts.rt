//! What halts the tool, and what that comes to.

ghost use Rattle.std.specs.Prelude.{◌≡◌};
ghost use Rattle.bac_keeper.specs.Halts.{keep_halt, missing_halt, naming_halt, plan_halt};
ghost use Rattle.bac_keeper.specs.Halts.{run_halt, stop_halt};

use crate::archive_fault::ArchiveFault;
use crate::fault::Fault;
use bac_drive::Fault as PollFault;
use bac_files::NotOpened;
use bac_historian::Fault as RunFault;
use bac_keeping::{KeepFault, StopHalt};
use bac_parts::FileFault;
use bac_plan::{NamingFault, PlanFault, StopFault};

/// What halts the tool.
#[derive(Clone, Copy)]
pub enum Halt {
    /// A fault of the program's own.
    Own(Fault),
    /// The file of the archive is no use.
    File(FileFault),
    /// The archive in it is no use.
    Archive(ArchiveFault),
}

fn naming_halt(why: NamingFault) -> Halt
    ensures { result ≡ naming_halt why }
{
    match why {
        NamingFault::Memory => Halt::Own(Fault::Memory),
        NamingFault::DevicesFull => Halt::Archive(ArchiveFault::DevicesFull),
        NamingFault::LogsFull => Halt::Archive(ArchiveFault::LogsFull),
    }
}

fn plan_halt(why: PlanFault) -> Halt
    ensures { result ≡ plan_halt why }
{
    match why {
        PlanFault::Memory => Halt::Own(Fault::Memory),
        PlanFault::Device(id) => Halt::Archive(ArchiveFault::Device(id)),
        PlanFault::Log(id) => Halt::Archive(ArchiveFault::Log(id)),
    }
}

fn keep_halt(why: KeepFault) -> Halt
    ensures { result ≡ keep_halt why }
{
    match why {
        KeepFault::Refused(why) => Halt::File(FileFault::Refused(why)),
        KeepFault::Untold(error) => Halt::File(FileFault::Database(error)),
        KeepFault::Naming(why) => naming_halt(why),
        KeepFault::Unput(error) => Halt::File(FileFault::Database(error)),
        KeepFault::Plan(why) => plan_halt(why),
        KeepFault::Poll(PollFault::Memory) => Halt::Own(Fault::Memory),
        KeepFault::Poll(PollFault::Archive(error)) => Halt::File(FileFault::Database(error)),
        KeepFault::Poll(PollFault::Output) => Halt::Own(Fault::Write),
        KeepFault::Poll(PollFault::Errors) => Halt::Own(Fault::Write),
        KeepFault::Poll(PollFault::Unending) => Halt::Archive(ArchiveFault::Endless),
    }
}

/// What halts a run comes to this.
pub(crate) fn run_halt(why: RunFault) -> Halt
    ensures { result ≡ run_halt why }
{
    match why {
        RunFault::File(why) => Halt::File(why),
        RunFault::Run(why) => keep_halt(why),
    }
}

fn missing_halt(why: StopFault) -> Halt
    ensures { result ≡ missing_halt why }
{
    match why {
        StopFault::Memory => Halt::Own(Fault::Memory),
        StopFault::NoDevice(_place) => Halt::Archive(ArchiveFault::NoDevice),
        StopFault::NoLog(_place, _instance) => Halt::Archive(ArchiveFault::NoLog),
    }
}

/// So does that nothing is stopped.
pub(crate) fn stop_halt(why: StopHalt) -> Halt
    ensures { result ≡ stop_halt why }
{
    match why {
        StopHalt::Nothing => Halt::File(FileFault::Unopened(NotOpened::Empty)),
        StopHalt::Refused(why) => Halt::File(FileFault::Refused(why)),
        StopHalt::Untold(error) => Halt::File(FileFault::Database(error)),
        StopHalt::Missing(why) => missing_halt(why),
        StopHalt::Unput(error) => Halt::File(FileFault::Database(error)),
    }
}
