//! Tests of runs: depth-first runs action by action, plays by both cores, of deques and of a ready list, by given words, and what cores show
//! of their laws in the middle of plays. And node tables that are large, and flat code as a text.
//!
//! This crate has no code but tests. It uses the parser, the table, flat code, the depth-first run and the two cores of the scheduler. It has no
//! theorem: each table says what runs have to give, worked out by hand. Moments of plays were compared with `reference/`, which shares no
//! line with the crates.
#![tactic(auto)]

#[cfg(test)]
mod flat;
#[cfg(test)]
mod handed_over;
#[cfg(test)]
mod players;
#[cfg(test)]
mod plays;
#[cfg(test)]
mod prefixes;
#[cfg(test)]
mod ready_moments;
#[cfg(test)]
mod steps;
#[cfg(test)]
mod tables;
#[cfg(test)]
mod traces;
