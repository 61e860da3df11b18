//! Bytes, and runs of them.

ghost use Rattle.std.specs.Prelude.{◌≡◌, ◌≤◌, ◌<◌, length, IsTrue};
ghost use Rattle.par_text.specs.Lexing.{is_letter, is_digit, is_word, is_blank, is_allowed, is_not_newline, takes_equal, begins_with_equal, run, piece_rest};

/// A letter or `_`.
pub(crate) fn is_letter(byte: u8) -> bool
    ensures { result ≡ is_letter byte }
{
    (b'A' <= byte && byte <= b'Z') || (b'a' <= byte && byte <= b'z') || byte == b'_'
}

/// A digit.
pub(crate) fn is_digit(byte: u8) -> bool
    ensures { result ≡ is_digit byte }
{
    b'0' <= byte && byte <= b'9'
}

/// A byte of a name, a keyword or a number.
fn is_word(byte: u8) -> bool
    ensures { result ≡ is_word byte }
{
    is_letter(byte) || is_digit(byte)
}

/// Space, tab, LF or CR.
pub(crate) fn is_blank(byte: u8) -> bool
    ensures { result ≡ is_blank byte }
{
    byte == b' ' || byte == b'\t' || byte == b'\n' || byte == b'\r'
}

/// A byte that a text may have.
pub(crate) fn is_allowed(byte: u8) -> bool
    ensures { result ≡ is_allowed byte }
{
    (b' ' <= byte && byte <= b'~') || byte == b'\t' || byte == b'\n' || byte == b'\r'
}

/// Whether a `=` behind this byte belongs to the same token.
fn takes_equal(byte: u8) -> bool
    ensures { result ≡ takes_equal byte }
{
    byte == b'<' || byte == b'>' || byte == b'=' || byte == b'!'
}

/// Whether a `=` stands first.
fn begins_with_equal(bytes: &[u8]) -> bool
    ensures value { result ≡ begins_with_equal bytes.now }
    ensures some { IsTrue result → 0 < length bytes.now }
{
    match bytes.split_first() {
        None => false,
        Some((first, _)) => *first == b'=',
    }
}

/// How many bytes at the front belong to a word.
fn word_run(bytes: &[u8]) -> usize
    ensures count { result ≡ run is_word bytes.now }
    ensures within { result ≤ length bytes.now }
{
    let mut count = 0;
    let mut rest = bytes;
    'bytes: while let Some((first, behind)) = rest.split_first() {
        if !is_word(*first) {
            break;
        }
        count += 1;
        rest = behind;
    }
    count
}

/// How many bytes at the front stand before the end of the line.
fn line_run(bytes: &[u8]) -> usize
    ensures count { result ≡ run is_not_newline bytes.now }
    ensures within { result ≤ length bytes.now }
{
    let mut count = 0;
    let mut rest = bytes;
    'bytes: while let Some((first, behind)) = rest.split_first() {
        if *first == b'\n' {
            break;
        }
        count += 1;
        rest = behind;
    }
    count
}

/// How many more bytes the piece has that begins with this byte.
#[tactic(auto, unfolding(par_text::specs::Lexing::piece_rest))]
pub(crate) fn piece_rest(first: u8, behind: &[u8]) -> usize
    ensures count { result ≡ piece_rest first behind.now }
    ensures within { result ≤ length behind.now }
{
    if is_word(first) {
        word_run(behind)
    } else if first == b'#' {
        line_run(behind)
    } else if takes_equal(first) && begins_with_equal(behind) {
        1
    } else {
        0
    }
}
