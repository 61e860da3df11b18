//! Bytes of a text, by their places.

ghost use Rattle.std.specs.Prelude.{◌≡◌, take, drop};
ghost use Rattle.loop_expand.specs.Texts.{between, bytes_of, place_behind};

use par_lex::Lexeme;

/// So many bytes from a place on, as far as the text has them.
fn bytes_from(text: &[u8], place: usize, count: usize) -> &[u8]
    ensures { result.now ≡ take count (drop place text.now) }
{
    let start = place.min(text.len());
    let (_, behind) = text.split_at(start);
    let len = count.min(behind.len());
    let (bytes, _) = behind.split_at(len);
    bytes
}

/// The bytes from one place on up to before another, as far as the text has them.
pub(crate) fn between(text: &[u8], from: usize, to: usize) -> &[u8]
    ensures { result.now ≡ between text.now from to }
{
    bytes_from(text, from, to.saturating_sub(from))
}

/// The bytes of a token of this text.
pub(crate) fn bytes_of<'a>(text: &'a [u8], token: &Lexeme) -> &'a [u8]
    ensures { result.now ≡ bytes_of text.now token.now }
{
    bytes_from(text, token.at as usize, token.len as usize)
}

/// The place behind a token.
pub(crate) fn place_behind(token: &Lexeme) -> usize
    ensures { result ≡ place_behind token.now }
{
    token.at as usize + token.len as usize
}
