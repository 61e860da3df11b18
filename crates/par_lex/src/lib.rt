//! The lexer: bytes to tokens.
//!
//! This layer cuts bytes into tokens. It stands on what a text is. Its one theorem is that it has the tokens that
//! the definition gives, each with its kind, its value and its place, exactly where all bytes are allowed and each
//! piece has a form; all other bytes it refuses, with the reason and the place of the first that is in the way.
#![tactic(auto)]

mod bytes;
mod forms;
mod kinds;
mod lexeme;
mod lexer;
mod parse_fail;
mod token;
mod token_list;

pub use lexeme::Lexeme;
pub use lexer::lexemes;
pub use parse_fail::ParseFail;
pub use token::{Token, Tokens};
pub use token_list::tokens;
