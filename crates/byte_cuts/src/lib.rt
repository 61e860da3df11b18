//! How bytes are cut: at the first of some byte, and after a first part.
//!
//! The readers of small texts (reports, words of a command line) stand on these two calls, and on the laws of
//! `proofs/Cuts.antt`, above all that bytes are cut in one way. The layer stands on std alone. Its one theorem is that
//! both calls answer None exactly where there is no such cut, and else the parts.
#![tactic(auto)]

mod bytes;

pub use bytes::{behind, cut_at};
