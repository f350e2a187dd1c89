//! Tests of the program's crates over streams and ports in memory: the jobs of words, and the
//! faults of readers, writers and ports that no contract can tell. What a script, a word or a
//! datagram can show lies in examples/check as data.
#![tactic(auto)]

#[cfg(test)]
mod find;
#[cfg(test)]
mod memory_port;
#[cfg(test)]
mod ports;
#[cfg(test)]
mod queries;
#[cfg(test)]
mod query_callers;
#[cfg(test)]
mod refusing;
#[cfg(test)]
mod run_callers;
#[cfg(test)]
mod serving;
#[cfg(test)]
mod silence_callers;
#[cfg(test)]
mod streams;
#[cfg(test)]
mod tell;
#[cfg(test)]
mod words;
