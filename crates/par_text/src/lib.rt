//! Which bytes are a text: tokens, the grammar, the tree of a text, each refusal.
//!
//! This layer has the kinds of token, the grammar with the tree that each form of it means, the words
//! for a text and for each refusal, and the reading of a list of tokens that a parser does. It stands
//! on the tree of a program. Its one theorem is that bytes have just one answer: one tree, or one
//! refusal at one place.
//!
//! # Why
//!
//! - **Three crates.** The tree is a crate by itself, since a checker, an evaluator and a printer need it and no text. What makes a text is
//!   separate from the code that reads it.
//! - **A name is its bytes**, in a struct of its own; lists of the tree are `Vec`s. Contracts speak of the plain data that a tree is, by
//!   `program_tree` and its kin.
//! - **`NAME [ index ] = e ;` is one rule** where the language has two alternatives, `x = e` and `b[i] = e`; so is `[ x = ] f(..)` after
//!   `call`. The texts and their trees are the same.
//! - **Tokens are pieces.** A piece is the longest run of letters, digits and `_`, or a comment, or one of `<=`, `>=`, `==`, `!=`, or one byte.
//!   A piece that is no blank and no comment is a token, or it is refused. So `12ab` and a name of 33 bytes are refused as tokens wherever they
//!   are. A number directly followed by a letter is refused as a token also if it is too large.
//! - **Viable is said of the grammar without limits.** A token is unexpected if no program, however deep and with however many names, begins
//!   with the tokens up to it. Depth and counts are separate, and the earliest token decides.
//! - **Depth counts every `{`, `(` and `[`**, also those of `fn f(`, `call f(` and `len(`, and every sign whose factor has not ended.
//! - **A declared name is found by the tokens before it**: in the parentheses of a function after its name, after `let`, `alloc` and `into`,
//!   after the comma of `into l, r`, and after `call own`.
//! - **A cut text** is refused at its length, with all blanks and comments after the last token.
//! - **The reading counts down the places that are left**, so its recursion is bounded by 64 constructs; a repetition is a loop. Dropping a
//!   tree recurses no deeper than that.
#![tactic(auto)]

mod kind;
mod laws;
mod stop;
mod syntax_error;

pub use kind::Kind;
pub use laws::{bytes_have_a_verdict, bytes_have_one_verdict};
pub use stop::Stop;
pub use syntax_error::{SyntaxError, SyntaxKind};
