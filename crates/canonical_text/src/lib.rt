//! The canonical text as a function of the tree, and that none of its parentheses is superfluous.
//!
//! It is a function of the tree; beside it is what it means that two programs are the same except for lines. It uses the tree of a program and
//! what a text is.
//!
//! Its theorems: the canonical text of a program that was read is a text of the same program except for lines, if it is not too long for a text;
//! lines do not matter, so reading and printing it again gives the same bytes; and it has no parenthesis too many: without one of its `(` and one
//! of its `)` it is no text of the same program.
//!
//! # Why
//!
//! - **The canonical text is defined on the tree, in bytes**, as one would write it down: a word, a name, ` = `, an expression, `;`. That it is
//!   read back is a theorem and no part of the definition.
//! - **A margin is bytes and no number.** What is before each line of a list of statements is passed down and grows by two spaces. So printing
//!   has no level that could wrap, and `print` has no condition. The code makes the deeper margin anew for each pair of braces, which costs at
//!   most as much as the line of the closing brace.
//! - **`print` takes every tree**, also one that no text has, as a chain without operators. Only the clauses on reading back have the premise
//!   that the program was read.
//! - **A place has a name of the grammar**: an expression is in the place of an `expr`, a `sum`, a `term` or a `factor`. Whether it needs
//!   parentheses depends only on the place and the expression.
//! - **"The same except for lines"** is: the same tree when all lines are set to 0.
//! - **A numeral takes a text of its own** before it is copied, a little memory more for each number. Names are bytes and need not be UTF-8, so
//!   the text as a whole is a list of bytes.
#![tactic(auto)]

mod laws;
mod place;

pub use laws::{canonical_is_text, canonical_stays, lines_do_not_matter, parentheses_are_needed};
pub use place::Place;
