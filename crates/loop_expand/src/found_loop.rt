//! A loop that was read.

use par_lex::Lexeme;

/// `par call X = F (`: its `par`, X and F.
#[derive(Clone, Copy)]
pub(crate) struct Head<'a> {
    pub(crate) opening: &'a Lexeme,
    pub(crate) target: &'a Lexeme,
    pub(crate) function: &'a Lexeme,
}

/// What a loop goes over.
#[derive(Clone, Copy)]
pub(crate) enum Range<'a> {
    /// The numbers from the value of one run up to before that of another.
    Numbers {
        low: &'a [Lexeme],
        high: &'a [Lexeme],
    },
    /// The parts of a block, each of at most so many words.
    Parts {
        block: &'a Lexeme,
        most: &'a Lexeme,
    },
}

/// A loop that was read.
#[derive(Drop)]
pub(crate) struct Loop<'a> {
    pub(crate) head: Head<'a>,
    pub(crate) range: Range<'a>,
    /// The further arguments of each call.
    pub(crate) others: Vec<&'a [Lexeme]>,
    /// Its `;`.
    pub(crate) closing: &'a Lexeme,
}
