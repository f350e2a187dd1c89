//! Tests of batches, by what a machine inside says and what is given.
#![tactic(auto)]

#[cfg(test)]
mod batches;
