//! The kinds of tokens that a run has.

ghost use Rattle.std.specs.Prelude.{◌≡◌};
ghost use Rattle.loop_expand.specs.Runs.{is_plain, is_inner, closer};

use par_text::Kind;

/// Whether a run has this kind outside brackets.
pub(crate) fn is_plain(kind: Kind) -> bool
    ensures { result ≡ is_plain kind }
{
    match kind {
        Kind::Name
        | Kind::Number
        | Kind::Assign
        | Kind::Plus
        | Kind::Minus
        | Kind::Star
        | Kind::Slash
        | Kind::Percent
        | Kind::Less
        | Kind::LessEqual
        | Kind::Greater
        | Kind::GreaterEqual
        | Kind::EqualEqual
        | Kind::NotEqual
        | Kind::Len => true,
        _ => false,
    }
}

/// Whether a run has this kind inside brackets.
pub(crate) fn is_inner(kind: Kind) -> bool
    ensures { result ≡ is_inner kind }
{
    is_plain(kind) || kind.is(Kind::Comma)
}

/// The bracket that closes this one.
pub(crate) fn closer(kind: Kind) -> Option<Kind>
    ensures { result ≡ closer kind }
{
    match kind {
        Kind::LeftParen => Some(Kind::RightParen),
        Kind::LeftBracket => Some(Kind::RightBracket),
        _ => None,
    }
}
