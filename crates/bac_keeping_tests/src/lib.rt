//! Tests of runs of keep by their public calls, over an archive in memory.
#![tactic(auto)]

#[cfg(test)]
mod ports;
#[cfg(test)]
mod runs;
