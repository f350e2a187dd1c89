//! Tests of a device's poll, by its public calls.
#![tactic(auto)]

#[cfg(test)]
mod comes;
#[cfg(test)]
mod device;
#[cfg(test)]
mod ends;
#[cfg(test)]
mod fewer;
#[cfg(test)]
mod lost;
#[cfg(test)]
mod passed;
#[cfg(test)]
mod way;
