//! How the devices of a site are polled.

use bac_site_poller::Limits;
use bac_walk::Count;
use bac_wire::Stamp;

/// How the devices of a site are polled in a run.
#[derive(Clone, Copy)]
pub struct Options {
    /// How many requests may be open, and how long each send is waited for.
    pub limits: Limits,
    /// How many records a request asks for.
    pub records: Count,
    /// After how many replies with records the poll of a log ends; none: after all of them.
    pub steps: Option<u32>,
    /// How often a request is repeated.
    pub retries: u8,
    /// Whether the clocks of devices are asked for: that of each once a day.
    pub clocks: bool,
    /// This machine's clock in UTC, as the run begins.
    pub begun: Stamp,
}
