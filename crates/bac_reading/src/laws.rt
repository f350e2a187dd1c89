//! What their status says of `kept` and `check`.

ghost use Rattle.bac_files.specs.Parts.{part_rules};
ghost use Rattle.bac_reading.specs.Laws.{OneIsNone, ZeroIsWhole, ZeroPrintsEach};

use bac_files::Parts;

/// Where `kept` ends with 0, each part is an archive that was printed, but the newest of a folder,
/// which may have nothing; and what was asked for is there.
pub fn zero_prints_each<P: Parts>(parts: &P)
    ensures { ZeroPrintsEach (part_rules P.lists P.holds P.bars) }
{
    let _parts = parts;
}

/// Where `check` ends with 0, each part goes on where the one before it ends, but the newest of
/// several, which may have nothing; and no number is missing.
pub fn zero_is_whole<P: Parts>(parts: &P)
    ensures { ZeroIsWhole (part_rules P.lists P.holds P.bars) }
{
    let _parts = parts;
}

/// `kept` never ends with 1: that is left for wrong words.
pub fn one_is_none<P: Parts>(parts: &P)
    ensures { OneIsNone (part_rules P.lists P.holds P.bars) }
{
    let _parts = parts;
}
