//! Tests of a hall with workers in it, one after the other and in threads.
//!
//! This crate has no code but tests. It uses the parser, the table, the core and the hall. It has no theorem: each test runs a program in a hall
//! and says how its run has to end for each worker.
#![tactic(auto)]

#[cfg(test)]
mod halls;
#[cfg(test)]
mod hold;
#[cfg(test)]
mod lanes;
#[cfg(test)]
mod rows;
#[cfg(test)]
mod runs;
#[cfg(test)]
mod scripts;
#[cfg(test)]
mod seats;
#[cfg(test)]
mod some;
