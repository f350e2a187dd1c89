//! Tests of what reads archives of format 3, by its public calls.
#![tactic(auto)]

#[cfg(test)]
mod archive;
#[cfg(test)]
mod checked;
#[cfg(test)]
mod kept;
#[cfg(test)]
mod parts;
#[cfg(test)]
mod silence;
