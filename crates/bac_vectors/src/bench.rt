//! What is kept from line to line.

use bac_log::TrendLog;
use bac_wire::Datagram;

/// A datagram that calls append to, what it began with, and a trend log.
#[derive(Drop)]
pub(crate) struct Bench {
    pub(crate) head: Datagram,
    pub(crate) out: Datagram,
    pub(crate) log: Option<TrendLog>,
}

impl Bench {
    pub(crate) fn new() -> Bench {
        Bench {
            head: Datagram::new(),
            out: Datagram::new(),
            log: None,
        }
    }
}
