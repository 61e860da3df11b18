//! What stands before a token, as far as counts go.

ghost use Rattle.std.specs.Prelude.{◌≡◌, ◌≤◌};
ghost use Rattle.par_text.specs.Counts.{is_declared, names_after, functions_after, in_header_after, after, is_too_many, most_functions, most_names};
ghost use Rattle.par_parse.specs.Counting.{counts_of, AllowsMore};

use language_limits::{MOST_FUNCTIONS, MOST_NAMES};
use par_text::Kind;

/// How many functions have begun, how many names the last one has declared, whether its parameters are
/// not closed yet, and the kinds of the three tokens before, the last one first.
#[derive(Clone, Copy)]
pub(crate) struct Before {
    pub functions: u32,
    pub names: u32,
    pub in_header: bool,
    pub last: Kind,
    pub second: Kind,
    pub third: Kind,
}

/// Whether a name that stands here is declared: as a parameter, by `let` or `alloc`, as one of the two
/// of a split, or by `call own`.
fn is_declared(before: &Before) -> bool
    ensures { result ≡ is_declared (counts_of before.now) }
{
    (before.in_header && !before.last.is(Kind::Fn))
        || before.last.is(Kind::Let)
        || before.last.is(Kind::Alloc)
        || before.last.is(Kind::Into)
        || (before.last.is(Kind::Comma) && before.third.is(Kind::Into))
        || (before.last.is(Kind::Own) && before.second.is(Kind::Call))
}

fn names_after(before: &Before, kind: Kind) -> u32
    requires { before.now.names ≤ most_names }
    ensures { result ≡ names_after (counts_of before.now) kind }
{
    if kind.is(Kind::Fn) {
        0
    } else if kind.is(Kind::Name) && is_declared(before) {
        before.names + 1
    } else {
        before.names
    }
}

fn functions_after(before: &Before, kind: Kind) -> u32
    requires { before.now.functions ≤ most_functions }
    ensures { result ≡ functions_after (counts_of before.now) kind }
{
    if kind.is(Kind::Fn) {
        before.functions + 1
    } else {
        before.functions
    }
}

/// What stands before the next token, behind a token of this kind.
pub(crate) fn after(before: &Before, kind: Kind) -> Before
    requires { AllowsMore before.now }
    ensures { counts_of result ≡ after (counts_of before.now) kind }
{
    let functions = functions_after(before, kind);
    let names = names_after(before, kind);
    let in_header = kind.is(Kind::Fn) || (before.in_header && !kind.is(Kind::RightParen));
    Before {
        functions,
        names,
        in_header,
        last: kind,
        second: before.last,
        third: before.second,
    }
}

/// Whether there is a function or a declared name too many.
pub(crate) fn is_too_many(before: &Before) -> bool
    ensures { result ≡ is_too_many (counts_of before.now) }
{
    before.functions > MOST_FUNCTIONS || before.names > MOST_NAMES
}
