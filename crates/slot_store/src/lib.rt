//! What a thread can reach while it runs a function: integers and blocks in slots.
//!
//! A function has a slot for each of its names. [`Slots`] is a row of them, in which each slot has an integer, and a block or none.
//! [`evaluate`] gives the number of an expression over slots; [`pass`] and [`lend_back`] move what a call takes and gives back, and
//! [`Slots::part`] and [`Slots::take_in`] what a forked child takes and brings back.
//!
//! The layer stands on the node table, on blocks that come from a pool, on the operators on numbers, and on the depth-first run as a
//! definition. There a thread has a store, in which integers and blocks are found by names. A row *shows* a store where each slot has just
//! the integer and the block that the store has under the slot's name, and the store holds no other block (`specs/Agreement.antt`). The one
//! theorem of this layer is that each call does to every store that the slots show just what the definition does to it.
//!
//! Blocks move, and their numbers are never copied. A call that needs memory asks for all of it before anything moves, so that behind want
//! of memory the slots are as they were. A new row, a fork, a join, and giving all blocks back take time by the number of slots; every other
//! call takes time by what it touches.
//!
//! # Why
//!
//! - **A row of slots shows a named store by equality at each slot**: the integer of a slot is that of its name, and the blocks under the name
//!   are just the block of the slot. So a clause is said for every store that the row shows, and no proof goes through a search by names.
//! - **At most one block of a name** is part of what it means that a row shows a store. Calls keep it under the condition that what is put
//!   under a slot meets none there. The laws of `ownership_laws` give this condition, so nothing is tested as a program runs.
//! - **Memory first.** A call asks for all memory before anything moves, and after "not enough memory" the row is unchanged.
//! - A fork and a join take time by the slots of the function. A block moves and is never copied.
#![tactic(auto)]

mod answer;
mod blocks;
mod expressions;
mod forks;
mod integers;
mod laws;
mod outcome;
mod parts;
mod passing;
mod returning;
mod slot;
mod slots;
mod words;

pub use answer::Answer;
pub use expressions::evaluate;
pub use laws::{
    rows_are_as_long_as_names, slots_have_what_the_store_has, stores_that_agree_are_shown,
    words_are_those_of_the_store,
};
pub use passing::pass;
pub use returning::lend_back;
pub use slots::Slots;
