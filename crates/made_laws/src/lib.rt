//! What a made source is and does: a text of the language, whose program keeps the rules, meets no fault and prints the number of each group
//! twice.
//!
//! The crate has laws alone, for up to 8,000 groups. It uses `made_source`, which writes the text, and the definitions of a text
//! (`par_text`), of the rules (`par_ownership`) and of what a program prints (`depth_first_run`). What follows for an answer of `make` is in
//! `dfd_laws`.
//!
//! Its theorems: the text has this tree ([`laws::made_sources_are_texts`]; `specs/MadeProgram.antt` has the tree, with the line of each
//! statement); the rules hold ([`laws::made_programs_keep_the_rules`]); and with any quota the run prints these numbers, 2n for n groups with
//! the sum n(n - 1), and ends without a fault ([`laws::made_programs_print_twice`], [`laws::made_lines_add_up`]).
//!
//! # Why
//!
//! - **The tree is found line by line.** No token goes over the end of a line, so the tokens of the text are those of its lines, one line
//!   after the other. A group and a call are each a statement on one line, read by the phrases that `loop_laws` has for the helpers of loops.
//!   Only a function and the program are put together of lines.
//! - **The tree has its lines**, though neither the rules nor the run need them, so that the law names one tree.
//! - **The run goes from a point at which the thread holds no block to the next such point** (`Goes` of `proofs/Going.antt`). A branch, a
//!   group and a call each do, and so do the dummies before an allocation, however many the quota makes of them. So counts, labels and
//!   integers are followed nowhere, and nothing is said of the quota.
#![tactic(auto)]

pub mod laws;
