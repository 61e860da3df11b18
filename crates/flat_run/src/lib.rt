//! Runs flat code over a row of slots.
//!
//! [`run_flat`] does the instructions of flat code (`flat_code`) one after another, from a place on, up to the first that does not go on: a
//! fault, a loop that has no turn left, or a place at which flat code ends. It holds a place and a number of turns, and no frames.
//!
//! It builds on rows of slots (`slot_store`), on the acts of straight code (`flat_expressions`) and on flat code (`flat_statements`,
//! `flat_code`).
//!
//! Its theorem is the contract of [`run_flat`]: what it does is steps of the machine of `flat_statements`, and the machine does not go on
//! where it stops. So by `machine_ends_with_the_thread` there, a thread that the machine represented does not go on by itself either, and the
//! mark of the place is its frames.
//!
//! # Why
//!
//! - **One instruction is one step of the machine**, so the loop has no case of its own, and what holds of the machine holds of it.
//! - **It stops where there is no turn.** A caller that lets a thread go on for so many turns alone gives it no more, and adds the rest again;
//!   so nothing is asked in a round but whether there is a turn.
//! - **It ends since code goes forward**: all places but those of the bodies of loops are later ones, and a body comes for a turn.
#![tactic(auto)]

mod end;
mod next;
mod running;
mod step;
mod stop;

pub use end::End;
pub use running::run_flat;
pub use stop::Stop;
