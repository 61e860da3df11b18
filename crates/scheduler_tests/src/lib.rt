//! Tests of the parts of a scheduler: deques, charges, books and moves, who moves and who is stolen from, partners in a list of actions, and
//! a row of slots with turns.
//!
//! This crate has no code but tests, and a user of a row of turns that they run. It uses the crates that it tests, each of which is so proved
//! only once. It has no theorem.
#![tactic(auto)]

#[cfg(test)]
mod deque_list_calls;
#[cfg(test)]
mod quota_period_calls;
#[cfg(test)]
mod space_ledger_calls;
#[cfg(test)]
mod trail_places_calls;
#[cfg(test)]
mod turn_tallies;
#[cfg(test)]
mod victim_choice_calls;
