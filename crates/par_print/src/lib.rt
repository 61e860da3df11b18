//! The printer: the canonical text of a program.
//!
//! This layer writes the text that `canonical_text` defines. It stands on that layer, on what a text is, and
//! on the tree of a program. Its one theorem is that `print` gives exactly the canonical text of the
//! tree; and where the program was read and the bytes are not too long for a text, they are a text of the
//! same program but for lines, and printing what is read from them gives the same bytes. Want of memory
//! is its one free answer.
#![tactic(auto)]

mod expressions;
mod functions;
mod lists;
mod places;
mod printer;
mod statements;
mod words;

pub use printer::print;
