//! Why a site isn't made, and why rows aren't made of words.

ghost use Rattle.std.specs.Prelude.{◌≡◌};

use std::alloc::{AllocError, AllocFailed};

/// Why no site is made of what an archive tells.
#[derive(Clone, Copy, Debug, PartialEq, Eq)]
pub enum PlanFault {
    /// There is no memory for it.
    Memory,
    /// The row of the device with this id doesn't tell where it is asked: its address isn't
    /// A.B.C.D:PORT, or it has no place behind its router; or its instance is none of a device.
    Device(u16),
    /// The instance in the row of the log with this id is none of an object.
    Log(u16),
}

impl From<AllocError> for PlanFault {
    ghost use Rattle.bac_plan.specs.declared.fault.PlanFault.TheVariants.{Memory};

    ghost from_gives = { λ _ fault. fault ≡ Memory };

    fn from(_error: AllocError) -> PlanFault {
        PlanFault::Memory
    }
}

impl<T: Drop> From<AllocFailed<T>> for PlanFault {
    ghost use Rattle.bac_plan.specs.declared.fault.PlanFault.TheVariants.{Memory};

    ghost from_gives = { λ _ fault. fault ≡ Memory };

    fn from(_error: AllocFailed<T>) -> PlanFault {
        PlanFault::Memory
    }
}

/// Why what words name isn't put on record.
#[derive(Clone, Copy, Debug, PartialEq, Eq)]
pub enum NamingFault {
    /// There is no memory for it.
    Memory,
    /// No id is left for a device: 65535 is the last one.
    DevicesFull,
    /// The same of a log.
    LogsFull,
}

impl From<AllocError> for NamingFault {
    ghost use Rattle.bac_plan.specs.declared.fault.NamingFault.TheVariants.{Memory};

    ghost from_gives = { λ _ fault. fault ≡ Memory };

    fn from(_error: AllocError) -> NamingFault {
        NamingFault::Memory
    }
}

impl<T: Drop> From<AllocFailed<T>> for NamingFault {
    ghost use Rattle.bac_plan.specs.declared.fault.NamingFault.TheVariants.{Memory};

    ghost from_gives = { λ _ fault. fault ≡ Memory };

    fn from(_error: AllocFailed<T>) -> NamingFault {
        NamingFault::Memory
    }
}

/// Why what words name isn't stopped.
#[derive(Clone, Copy, Debug, PartialEq, Eq)]
pub enum StopFault {
    /// There is no memory for it.
    Memory,
    /// The device that is named at this place among the words isn't on record.
    NoDevice(usize),
    /// The device is, and of the logs that are named of it the one with this instance isn't.
    NoLog(usize, u32),
}

impl From<AllocError> for StopFault {
    ghost use Rattle.bac_plan.specs.declared.fault.StopFault.TheVariants.{Memory};

    ghost from_gives = { λ _ fault. fault ≡ Memory };

    fn from(_error: AllocError) -> StopFault {
        StopFault::Memory
    }
}
