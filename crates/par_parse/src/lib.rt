//! The parser: tokens to a tree.
//!
//! This layer reads the tokens of a text into a tree. It stands on what a text is, on its tokens, and on the tree of
//! a program. Its one theorem is that `parse` answers a tree exactly on the texts, and it is the tree of the text; all
//! other bytes it refuses, with the reason and the place that the grammar gives them. Want of memory is its one free
//! answer.
#![tactic(auto)]

mod before;
mod calls;
mod counting;
mod expressions;
mod functions;
mod parse_error;
mod parser;
mod statements;
mod words;

pub use par_lex::ParseFail;
pub use par_text::{SyntaxError, SyntaxKind};
pub use parser::parse;
