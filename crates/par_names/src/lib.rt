//! Which names a list of statements writes, and to which integers it assigns.
//!
//! A checker parts names between branches by these tests, and a run parts the blocks of a thread by them.
//! The layer stands on the tree of programs and on the definitions of what a list mentions; its one theorem is
//! that the tests decide them. `names_in` and `assigns_in` walk the statements for each name. Who asks for many
//! names of one list makes a `NamedBody`, which walks it once.
//!
//! # Why
//!
//! - **The mention tests are a crate of their own**, since the checker and the table of nodes both part names by them.
#![tactic(auto)]

mod assigned;
mod laws;
mod mentioned;
mod mentions;
mod name_set;
mod named_body;

pub use laws::tests_find_the_listed;
pub use mentions::{assigns_in, is_name, names_in};
pub use named_body::NamedBody;
