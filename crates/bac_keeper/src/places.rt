//! Where an archive is kept.

ghost use Rattle.std.specs.Prelude.{IfErr, IfOk};
ghost use Rattle.bac_files.specs.Parts.{IsPlaced};
ghost use Rattle.bac_parts.specs.Archives.{IsUnopenedAs};
ghost use Rattle.bac_keeper.specs.Places.{AreUntouched};

use bac_files::{DiskFiles, Place};
use bac_parts::FileFault;
use sqlite::Start;

/// The place of the archive of this name, which may be made or not, where a part with so many
/// octets is full. Its file is waited for so many seconds from then on, where it is in use.
pub(crate) fn place_of<F: Start>(
    files: &mut DiskFiles<'_, F>,
    name: &str,
    may_make: bool,
    full: u64,
    wait: u32,
) -> Result<Place, FileFault>
    ensures placed { IfOk result (IsPlaced name.now) }
    ensures fault { IfErr result (IsUnopenedAs name.now may_make files.new) }
    ensures untouched { AreUntouched files.old files.new }
{
    files.wait_for(wait);
    match files.place(name, may_make, full) {
        Ok(place) => Ok(place),
        Err(why) => Err(FileFault::Unopened(why)),
    }
}
