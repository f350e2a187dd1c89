//! Tests of `kept` and `check` over archives of format 3 in files and folders, by their public
//! calls: what a user sees.
#![tactic(auto)]

#[cfg(test)]
mod archive;
#[cfg(test)]
mod checked;
#[cfg(test)]
mod kept;
#[cfg(test)]
mod last;
