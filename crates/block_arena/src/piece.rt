ghost use Rattle.std.specs.Prelude.{◌≡◌, ◌<◌, length, pos, replicate, slice_set, slice_get};
ghost use Rattle.language_limits.specs.declared.TheConstants.{PIECE_WORDS};

/// The words of one piece.
#[derive(Debug, Drop)]
pub(crate) struct Piece {
    words: [i64; 16],
    ghost whole: { length words ≡ PIECE_WORDS },
}

impl Piece {
    /// A piece of zeros.
    pub(crate) fn new() -> Piece
        ensures { result.words ≡ replicate PIECE_WORDS (pos 0) }
    {
        Piece { words: [0; 16] }
    }

    pub(crate) fn get(&self, i: usize) -> i64
        requires { i < PIECE_WORDS }
        ensures { slice_get self.now.words i ≡ Some result }
    {
        self.words[i]
    }

    pub(crate) fn set(&mut self, i: usize, value: i64)
        requires { i < PIECE_WORDS }
        ensures { self.new.words ≡ slice_set self.old.words i value }
    {
        self.words[i] = value;
    }

    pub(crate) fn clear(&mut self)
        ensures { self.new.words ≡ replicate PIECE_WORDS (pos 0) }
    {
        self.words = [0; 16];
    }
}
