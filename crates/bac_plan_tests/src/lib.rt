//! Tests of what a run of keep begins with, by its public calls.
#![tactic(auto)]

#[cfg(test)]
mod clock;
#[cfg(test)]
mod naming;
#[cfg(test)]
mod site;
