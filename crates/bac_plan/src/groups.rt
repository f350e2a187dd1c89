//! The rows of logs, by the devices that they are of.

ghost use Rattle.std.specs.Prelude.{◌≡◌, ℕ, ◌<◌, ◌++◌, ◌∷◌, [], filter, IfOk, OnOk, Some};
ghost use Rattle.std.specs.Prelude.{option_copied, slice_get};
ghost use Rattle.std.specs.Option.{option_map};
ghost use Rattle.bac_plan.specs.Logs.{is_of, with_log_of};

use bac_archive::LogRow;
use std::alloc::{AllocError, Global};
use std::marker::Model;

/// How many ids there are.
const IDS: u32 = 65_536;

/// The rows of the logs of a device.
#[derive(Drop)]
pub struct Group {
    pub logs: Vec<LogRow>,
}

impl Model for Group {
    ghost use Rattle.std.specs.Prelude.{List};
    ghost use Rattle.bac_archive.specs.declared.row.LogRow.{LogRow};

    ghost Value = { List LogRow };

    ghost view = { λ group. group.logs.items };
}

// Of each device that there may be no logs.
fn no_logs(alloc: Global) -> Result<Vec<Group>, AllocError>
    ensures { IfOk result (λ groups. (id : ℕ) → id < 65536 → slice_get groups.items id ≡ Some []) }
{
    let mut groups = Vec::new(alloc);
    for _ in 0..IDS {
        groups.push(Group {
            logs: Vec::new(alloc),
        })?;
    }
    Ok(groups)
}

impl Group {
    // One more log.
    fn push(&mut self, log: LogRow) -> Result<(), AllocError>
        ensures { OnOk result (self.new ≡ self.old ++ log ∷ []) }
    {
        self.logs.push(log)?;
        Ok(())
    }
}

// One more log, of its device.
fn push_at(groups: &mut [Group], log: LogRow) -> Result<(), AllocError>
    ensures { OnOk result ((id : ℕ) → slice_get groups.new id
        ≡ option_map (with_log_of id log) (slice_get groups.old id)) }
{
    let at = usize::from(log.device);
    if at < groups.len() {
        groups[at].push(log)?;
    }
    Ok(())
}

/// These logs, by the ids of their devices, those of one in their order. Each is looked at once.
pub(crate) fn by_device(alloc: Global, logs: Vec<LogRow>) -> Result<Vec<Group>, AllocError>
    ensures { IfOk result (λ groups. (id : ℕ) → id < 65536
        → slice_get groups.items id ≡ Some (filter (is_of id) logs.items)) }
{
    let mut groups = no_logs(alloc)?;
    for log in logs {
        push_at(groups.as_mut_slice(), log)?;
    }
    Ok(groups)
}
