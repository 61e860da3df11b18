ghost use Rattle.std.specs.Prelude.{◌≡◌};
ghost use Rattle.block_arena.specs.Size.{pieces_for as pieces_for_words};

use language_limits::PIECE_WORDS;

/// The most pieces of a block: 32 bits count their words.
pub const MOST_PIECES: u32 = 268_435_455;

/// The most words that a pool counts: more than any memory has.
pub const MOST_COUNTED: u64 = 4_611_686_018_427_387_904;

/// How many pieces hold `words` words, the last of them perhaps in part.
pub fn pieces_for(words: u32) -> u32
    ensures { result ≡ pieces_for_words words }
{
    words.div_ceil(PIECE_WORDS)
}
