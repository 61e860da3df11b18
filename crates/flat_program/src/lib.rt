//! The flat code of a whole program, and where each frame of a thread begins in it.
//!
//! [`FlatProgram::of`] makes flat code of each list of statements of a node table that a thread does not leave by itself: the bodies of
//! functions, the branches of each `par` and the body of each `split`. [`FlatProgram::start`] finds the place of a frame by its node.
//!
//! It builds on the node table (`node_table`), on frames (`thread_stack`), on rows of slots (`slot_store`), on flat code (`flat_code`,
//! `flat_statements`) and on the loop that runs it (`flat_run`).
//!
//! Its theorem: at the place that [`FlatProgram::start`] gives there is the code of all frames of the place's mark (`Begins` of
//! `flat_code`), and the code goes forward. So a thread whose frames are that mark is represented there by the machine of `flat_statements`,
//! and [`FlatList::run`] goes its way: by its contract the thread comes, step by step, to the frames of the mark of the place where the run
//! stops, with the row that is left. Whether its frames are the mark a thread asks by [`FlatList::left_below`], which says exactly how many
//! frames of its stack are below them; [`FlatList::push_mark`] puts those of the place where the run stopped there, for which it has made
//! room before the run. Whether its row is as long as the list says, it asks itself. A frame without a start is no fault: its statement is
//! done by the thread. What it knows of its way is in `flat_threads`.
//!
//! By the clauses `bodies` and `begins` of [`FlatProgram::of`] the body of each function has code (`HasBodies`), and its first statement has a
//! start (`HasBodyStarts`), if some row that may be has room for its intermediate numbers and its places have numbers. A frame with a start
//! is found by [`FlatProgram::start`]; there are entries for the starts of each node of the table (`sized`).
//!
//! Not there yet: the same of the branches of a `par` and of the body of a `split`, whose slots are those of the function in which they are.
//!
//! # Why
//!
//! - **A start is found by the node.** Each node is a statement of one list, so a table by nodes has two entries for each: where its statement
//!   begins, and where it comes again if it is a loop.
//! - **Which frame is at a start is not kept**: a thread compares the whole mark with its stack. So nothing is to be shown of the tables but
//!   that each entry is the first place of some statement, where the mark is another than before.
//! - **A list says how many frames a mark of it has at most.** So a thread finds memory for them before a run, which cannot be undone.
//! - **Frames are compared case by case**, so that two frames are found to be the same exactly if they are.
//! - **A row is as long as the list needs.** Its length is found by trying, from the slots of the function on. A thread keeps the slots of
//!   the function alone: the temporary ones come as a list is entered, and go as it is left.
#![tactic(auto)]

mod flat_list;
mod flat_program;
mod flat_start;
mod making;
mod marking;
mod owners;
mod running;
mod starting;

pub use flat_code::Instruction;
pub use flat_list::FlatList;
pub use flat_program::FlatProgram;
pub use flat_start::FlatStart;
