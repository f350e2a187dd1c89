//! A caller that names the doors of the client and of the device alone walks a log over a port:
//! what it needs of the crates below is given on by these two.
#![tactic(auto)]

mod fetching;
#[cfg(test)]
mod loopback;

pub use fetching::fetch;
