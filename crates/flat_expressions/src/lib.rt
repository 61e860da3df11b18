//! The straight code of expressions over a row of slots: what it is, and that each expression has it.
//!
//! An act leaves a number in a slot, or writes one to a block, or meets a fault (`specs/Acts.antt`); straight code is acts one after
//! another. The code of an expression (`specs/Codes.antt`) leaves its intermediate
//! numbers in temporary slots, which are after the function's own slots, and its last act alone writes the slot that the number goes
//! to. A number or a slot that is an operand is read in place. A comparison that is a condition is made by the test of the
//! condition, and left nowhere.
//!
//! It builds on the node table (`node_table`), on rows of slots (`slot_store`), on the operators (`number_operators`) and on the
//! depth-first run as a definition (`depth_first_run`).
//!
//! Its theorem, [`expressions_have_code`]: in each row that is long enough, the code of an expression leaves in its slot the number of
//! the expression over the row and changes no other slot of the function, or it meets the same fault and changes none. By
//! [`rows_give_the_value`] this number is the value that the depth-first run gives over the store that the row shows. The same is said of
//! assignments, of writes to blocks and of conditions, in the words in which flat code of statements needs it ([`assignments_have_code`],
//! [`writes_have_code`], [`conditions_have_code`]). [`do_act`] and [`write`] do one
//! act to a row, and [`run`] what straight code does to it.
//!
//! `flat_code` makes the acts of an expression. A write to a block is no [`Act`]: it leaves no number, and one comes at most in a statement.
//!
//! # Why
//!
//! - **The code of an expression is a function of it**, so there is one for each expression and each slot, and the function that makes
//!   it says which by an equation. What is asked of code is said apart from that (`specs/Meanings.antt`): any acts will do that do
//!   to the function's slots what the definition says. So better code needs no other law above.
//! - **Numbers are read off a row before names come in.** The value over a row has no names, so code and rows are compared without a
//!   store, and one law takes the value to the store.
//! - **A row has the function's slots in front**, said slot by slot. So nothing is said of what is left in temporary slots.
#![tactic(auto)]

mod act;
mod laws;
mod operand;
mod running;

pub use act::Act;
pub use laws::{
    assignments_have_code, conditions_have_code, expressions_have_code, rows_give_the_value,
    writes_have_code,
};
pub use operand::Operand;
pub use running::{do_act, read, run, write};
