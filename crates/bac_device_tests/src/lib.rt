//! What no script can show of a device, and callers that see public contracts alone. Datagrams and
//! their answers, samples and the clock are scripts in examples/scripts.
#![tactic(auto)]

#[cfg(test)]
mod commanding;
#[cfg(test)]
mod names;
#[cfg(test)]
mod plant;
#[cfg(test)]
mod runs;
