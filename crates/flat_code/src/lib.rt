//! Makes flat code of a node table.
//!
//! Flat code (`flat_statements`) has acts one after another for all statements of a list, with jumps in place of lists in lists. This layer
//! has its Rust types and makes it: a [`Place`] has an [`Instruction`] and a mark, the frames that a thread has inside its function where it
//! is before the statement to which the place belongs. [`lower_expression`], [`lower_operand`] and [`lower_condition`] append the acts of an
//! expression of the table, [`lower_whole`] makes the places of the body of a function, or of another list that a thread does not leave
//! by itself. A statement that the flat machine leaves to the thread (an allocation, a release, a call, `print`, `par`, `split`) is one
//! place at which flat code ends; what is inside a `par` or a `split` is a list of its own. [`listing`] writes the places as a text, a line
//! each.
//!
//! It builds on the node table (`node_table`), on frames (`thread_stack`), on straight code (`flat_expressions`) and on flat code as a
//! definition (`flat_statements`).
//!
//! Its theorem is the contract of [`lower_whole`]: what is made is the code of the list, so by `machine_follows_the_thread` of
//! `flat_statements` the machine that runs it goes the way of the thread. It is asked for where [`can_be_flat`], which says exactly
//! whether the slots of the list are slots of the function and its expressions find their temporary slots in the row; by
//! [`lists_of_programs_can_be_flat`] each list of a program does, if the row has room for the intermediate numbers of its expressions.
//! Then not enough memory, and too many places, are the only refusals; there are too many exactly if 32 bits cannot number them. By
//! [`longer_rows_serve`] a longer row is as good.
//!
//! By its second clause the code goes forward, so a run of it ends (`flat_run` has the loop). By its third clause a place with another mark
//! than the place before it is one at which a thread may begin; `flat_program` makes a table of them.
//!
//! # Why
//!
//! - **What is made is a function of the table** (`specs/Made.antt`): the places of a statement, by where they begin. The code of the crate is
//!   proved to make it, list by list, and one law by recursion over the nodes says that it is flat code. Neither proof sees the other.
//! - **Places are known before they are made.** What is inside a statement is made first, beginning at the place at which it will be, so that
//!   no jump is filled in later.
//! - **A list is made apart and then added to what is before it.** A place is moved once for each list around it, and these are at most as
//!   many as the text has braces open at once.
//! - **Too many places are refused where the first one without a number is met**, and once more at the end for the last statement. Each number
//!   that is tried is one of a place of the code, or of the end of it, so no other code is refused.
//! - **The check comes before, apart from the making.** So what can go wrong with an expression is said once, as a question about
//!   the table, and the making has no answer for it.
//! - **A mark is kept with each place**, the next frame last, as on a thread's stack: a thread that leaves flat code takes its frames as they
//!   are.
#![tactic(auto)]

mod arms;
mod condition;
mod expressions;
mod fitting;
mod instruction;
mod laws;
mod lower_fail;
mod lowering;
mod marks;
mod place;
mod placing;
mod printing;
mod room;
mod scope;
mod site;
mod statements;
mod test;

pub use expressions::{lower_condition, lower_expression, lower_operand};
pub use instruction::Instruction;
pub use laws::{lists_of_programs_can_be_flat, longer_rows_serve};
pub use lower_fail::LowerFail;
pub use lowering::{can_be_flat, lower_whole};
pub use place::{Mark, Place, Places};
pub use printing::listing;
pub use room::has_room;
pub use test::Test;
