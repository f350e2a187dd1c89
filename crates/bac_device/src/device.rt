//! A device.

ghost use Rattle.std.specs.Prelude.{◌≡◌, IfOk};
ghost use Rattle.bac_wire.specs.OptionChain.{GivesSome};
ghost use Rattle.bac_objects.specs.Build.{Builds};
ghost use Rattle.bac_objects.specs.Chain.{LeavesWith};
ghost use Rattle.bac_objects.specs.Sampling.{log_of, sampled};
ghost use Rattle.bac_objects.specs.Sound.{IsSound};
ghost use Rattle.bac_device.specs.Clock.{Advances, advanced};

use bac_log::TrendLog;
use bac_objects::{BuildFault, Database, DeviceLine, ObjectLine, SampleFault};
use bac_wire::Stamp;
use std::alloc::Global;
use std::marker::Model;

/// A clock isn't set back.
#[derive(Clone, Copy, Debug, PartialEq, Eq)]
pub struct ClockBack;

/// A device, which contracts see as its state.
#[derive(Drop)]
pub struct Device {
    pub(crate) database: Database,
}

impl Model for Device {
    ghost use Rattle.bac_objects.specs.State.{State};

    ghost Value = { State };

    ghost view = { λ device. device.database };

    ghost use Rattle.bac_objects.specs.Sound.{IsSound};

    ghost invariant = { λ device. IsSound device.database };
}

impl Device {
    /// The device that lines describe, or their first fault: the device's own line first, then each
    /// object line by rising numbers of faults. Only lines without a fault make anything grow, so
    /// out of memory comes last.
    pub fn build(
        alloc: Global,
        device: &DeviceLine,
        lines: &[ObjectLine],
    ) -> Result<Device, BuildFault>
        ensures built { Builds result device.now lines.now }
        ensures sound { IfOk result IsSound }
    {
        match Database::build(alloc, device, lines) {
            Ok(database) => Ok(Device { database }),
            Err(fault) => Err(fault),
        }
    }

    /// What the device's clock shows.
    pub fn clock(&self) -> Stamp
        ensures clock { result ≡ self.now.clock }
        ensures sound { IsSound self.now }
    {
        self.database.clock()
    }

    /// Takes one sample into the Trend Log with an instance, and gives its sequence number. The
    /// sample has the clock and the source's present value, or an error if the source isn't
    /// there (object, unknown-object) or has none (property, unknown-property). The first fault
    /// decides: no such log, a disabled one, no sequence number left.
    pub fn sample(&mut self, instance: u32) -> Result<u32, SampleFault>
        ensures sampled { LeavesWith result self.old self.new (sampled self.old instance) }
        ensures was_sound { IsSound self.old }
        ensures sound { IsSound self.new }
    {
        self.database.sample(instance)
    }

    /// The records of the Trend Log with an instance.
    pub fn log(&self, instance: u32) -> Option<&TrendLog>
        ensures log { GivesSome (λ log. log.now) result (log_of self.now instance) }
        ensures sound { IsSound self.now }
    {
        self.database.log(instance)
    }

    /// Sets the clock, and each Trend Log that is due takes one sample of what its source was
    /// before; answers how many did.
    #[tactic(auto, unfolding(crate::specs::Clock::advanced))]
    pub fn advance(&mut self, stamp: Stamp) -> Result<usize, ClockBack>
        ensures advanced { Advances result self.old self.new (advanced self.old stamp) }
        ensures was_sound { IsSound self.old }
        ensures sound { IsSound self.new }
    {
        if stamp.ticks() < self.database.clock().ticks() {
            return Err(ClockBack);
        }
        Ok(self.database.advance(stamp))
    }
}
