//! Tests of whole calls of the program, over streams in memory: each command, with each call of a stream failing in turn, and gates.
//!
//! This crate has no code but tests. It uses `dfd_run`. It has no theorem: each table says what calls have to answer. What the built program
//! shows as a process is in the rows of the folder `rows`.
#![tactic(auto)]

#[cfg(test)]
mod calls;
#[cfg(test)]
mod gates;
#[cfg(test)]
mod streams;
