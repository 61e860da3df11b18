//! Sources: from bytes to a program that can be run.
//!
//! [`accept`] is parser and checker in one call: a source is accepted exactly if its bytes are a text whose program keeps the rules of ownership.
//! Otherwise it is refused with the refusal of the text, or with the first refusal of the rules.
//!
//! The laws say what is known of an accepted program, for those who run it: each call finds a function that takes what it passes, each name that is
//! written is declared, there is a `main`, and functions, names and statements are few. So it can be run by names and by small numbers.
//!
//! It uses the parser (`par_parse`), the checker (`block_check`) and the definitions of both.
//!
//! # Why
//!
//! - What those who run a program need of the rules is in a crate of its own, as laws over `Ownership`. The laws say what each call finds, that
//!   `main` is there, that function names differ, and that a written name is declared. That no case meets a gone block or a name of the wrong
//!   kind is what the cases of the relation say, and has no law beside them.
//! - Reading and checking a source are one call, `accept`, so that every user of a source has the same two refusals. The table of the rules is
//!   its test, since a refused program is most plainly a text.
#![tactic(auto)]

mod laws;
mod source;
mod source_fail;

pub use laws::{
    calls_are_calls, counts_are_of_the_tree, function_names_differ, main_is_there,
    names_are_declared, sizes_are_small,
};
pub use source::accept;
pub use source_fail::SourceFail;
