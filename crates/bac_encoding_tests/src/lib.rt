//! Callers of the encodings and of a trend log that see their public contracts alone. What their
//! calls answer, octet by octet, is in examples/vectors.
#![tactic(auto)]

#[cfg(test)]
mod datagrams;
#[cfg(test)]
mod log_callers;
#[cfg(test)]
mod passage;
