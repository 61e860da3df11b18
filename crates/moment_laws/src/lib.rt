//! Where a scheduler stands, what one step of a run changes, and what the rules of play want, as a scheduler cites it.
//!
//! What a scheduler shows of itself (parts, words in use, how many periods were begun, moves) stands at a lawful moment, and after each event
//! at the next one. This is said over plain data, for a scheduler in one hand and for one whose parts are in slots.
//!
//! A scheduler that does one event after another needs of the machine a few facts of each step: that the run goes on with it, what it adds
//! to the moves, the actions and the periods, that what it does is what the rules want of the worker, and how the End of the root comes. They
//! are stated here over plain data, beside what a list of deques tells of the moment that it shows. It holds definitions and laws alone.
//!
//! It stands on the machine (`deque_machine`), on the parts that show its moments (`moment_shown`), and on lists of deques (`list_changes`,
//! `play_rules`). Each law is the contract of a function of [`laws`].
#![tactic(auto)]

pub mod laws;
