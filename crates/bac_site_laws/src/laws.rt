//! Laws of the rows of trend logs that a site's polls put. Each function does nothing: what it
//! ensures is the law.

ghost use Rattle.bac_site_laws.specs.Laws.{GapsAreTold, RowsAreLogged, RowsGoOn};
ghost use Rattle.bac_site_laws.specs.Own.{KeepsTurns, NumbersOnce, RowsAreTold};
ghost use Rattle.bac_site_laws.specs.Tracks.{BatchedRowsAreOwn, RowsAreOwn};

use bac_batch::loses_nothing;
use bac_poll_laws::each_shown_once;
use bac_site_poller::SitePoller;

/// Whatever is answered, the rows that the poll of a log puts go on from where the log stands, each
/// from where the one before it ended: each number comes once, in a record or in a gap, and behind
/// the last number of an epoch the next one begins.
pub fn rows_go_on()
    ensures { RowsGoOn }
{
    each_shown_once();
}

/// Each record that is put is one that was shown, as it was; and a gap that isn't marked as
/// doubtful ends where a reply said that nothing stands before it.
pub fn gaps_are_told()
    ensures { GapsAreTold }
{
    each_shown_once();
}

/// Where a device shows what its log holds, each row is an entry of the log, under its number, and
/// none comes twice; and a gap that isn't marked as doubtful lies over what was gone.
pub fn rows_are_logged()
    ensures { RowsAreLogged }
{
    each_shown_once();
}

/// What the poll of a device keeps while a log is polled is the rows of that log's own turns.
pub fn keeps_turns()
    ensures { KeepsTurns }
{}

/// So what it keeps of that log covers each number once.
pub fn numbers_once()
    ensures { NumbersOnce }
{
    each_shown_once();
}

/// And it is what its device said: each record is one that its answers showed, and a gap that isn't
/// marked as doubtful ends where one of them said that nothing stands before it; where they show
/// what the log holds, records are its entries, and such a gap lies over what was gone.
pub fn rows_are_told()
    ensures { RowsAreTold }
{
    each_shown_once();
}

/// Whatever happens to a site, each of its devices goes its own way, whatever others answer or
/// don't; and the rows of logs that the site puts are those that its devices keep.
pub fn rows_are_own()
    ensures { RowsAreOwn }
{}

/// The same of a site whose rows are put in batches.
pub fn batched_rows_are_own()
    ensures { BatchedRowsAreOwn }
{
    loses_nothing::<SitePoller>();
}
