//! The made source: the text of a program of 1 to 8,000 groups.
//!
//! A group is a line with a `par`, whose two branches each allocate a short block, write to it, print from it and free it.
//! Each function has 64 groups, the last one what is left, and `main` calls the functions in order. So a number makes a
//! program of any size, without a text to read.
//!
//! The layer stands on `language_limits`. Its one theorem is the contract of [`made_source`]: the text is that of
//! `specs/MadeSource.antt`, byte for byte, and no longer than a text may be.
#![tactic(auto)]

mod function;
mod group;
mod source;

pub use source::made_source;
