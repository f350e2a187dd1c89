//! Laws of what is on record behind a run, and behind what is stopped. Each function does nothing:
//! what it ensures is the law. SQLite keeps the rows of each table by rising ids (RowsRise), which
//! is what some of them ask of an archive that was there.

ghost use Rattle.bac_keeping.specs.RecordLaws.{KeepNames, KeepPollsAll, KeepRecord, OthersStand};
ghost use Rattle.bac_keeping.specs.RecordLaws.{StopLosesNothing, StopStops};
ghost use Rattle.bac_site_poller.specs.SiteLaws.{site_acts};

use bac_archive::puts_are_one;
use bac_batch::Batching;
use bac_drive::{Clock, runs_put};
use bac_plan::{
    each_is_polled_once, fresh_logs_are_asked, named_are_polled, named_are_stopped, named_are_told,
    named_logs_are_asked, others_go_on, puts_keep_ids, stopped_are_told, told_have_own_ids,
};
use bac_ports::Port;
use bac_site_poller::SitePoller;

/// Every log on record that isn't stopped, of a device that isn't, has its place in the site of a
/// run, and no other log has.
pub fn keep_polls_all()
    ensures { KeepPollsAll }
{
    each_is_polled_once();
    told_have_own_ids();
}

/// What words name is on record as the poll begins, and isn't stopped: each device, and each log.
pub fn keep_names()
    ensures { KeepNames }
{
    named_are_told();
    named_are_polled();
    named_logs_are_asked();
    fresh_logs_are_asked();
    told_have_own_ids();
}

/// What is on record then stays there, polled or not answered, whatever ends the run.
pub fn keep_record<P: Port, C: Clock>()
    ensures { KeepRecord (site_acts P.sends P.receives_within C.reads) }
{
    puts_keep_ids();
    runs_put::<Batching<SitePoller>, P, C>();
}

/// What words stop loses nothing that an archive had.
pub fn stop_loses_nothing()
    ensures { StopLosesNothing }
{
    puts_are_one();
}

/// What words stop is told as stopped then, and what they don't name as it was.
pub fn stop_stops()
    ensures named { StopStops }
    ensures others { OthersStand }
{
    stopped_are_told();
    named_are_stopped();
    others_go_on();
}
