//! The operators of the language on numbers of 64 bits, and the tests of numbers that blocks need.
//!
//! [`operate`], [`compare`] and [`negate`] are the operators of expressions, [`is_true`] is the test of a condition. [`size_of`],
//! [`place_in`] and [`cut_of`] say which number is the length of a block, a place in a block, and a place where a block is cut.
//!
//! The layer stands on the depth-first run as a definition. Its one theorem is that each function gives just what that definition gives,
//! and is refused just where it has a fault. No function needs memory.
//!
//! # Why
//!
//! - The operators and the tests of lengths, places and cuts are in a crate of their own below the stores of threads, and each says once what
//!   the depth-first run says.
#![tactic(auto)]

mod comparisons;
mod operators;
mod places;

pub use comparisons::{compare, is_true};
pub use operators::{negate, operate};
pub use places::{cut_of, place_in, place_up_to, size_of};
