//! Tests of a site's poll over whole devices, by its public calls.
#![tactic(auto)]

#[cfg(test)]
mod lists;
#[cfg(test)]
mod numbers;
#[cfg(test)]
mod question;
#[cfg(test)]
mod rig;
#[cfg(test)]
mod router;
#[cfg(test)]
mod seats;
#[cfg(test)]
mod silent;
