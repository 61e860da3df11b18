ghost use Rattle.std.specs.Prelude.{◌≡◌, ◌≤◌, ◌<◌, ◌-◌, ◌↔◌, ◌⊎◌, ◌≢◌, ◌%◌, length, max, slice_get, slice_set, IsOk, IsErr, IsNone, IsTrue, IfOk, IfErr, OnOk, OnErr};
ghost use Rattle.block_arena.specs.Size.{pieces_for, words_taken};
ghost use Rattle.block_arena.specs.Content.{left_of, right_of, joined, IsCut, CanJoin};

use crate::error::{OutOfRange, SplitRefused};
use crate::numbers::Numbers;
use crate::shell::Shell;
use crate::size::{MOST_PIECES, pieces_for};
use language_limits::PIECE_WORDS;
use std::alloc::AllocError;
use std::marker::Model;

/// A block of a pool: a list of numbers, in pieces that came out of the pool.
///
/// A block comes from [`Pool::take`](crate::Pool::take), and from a cut or a join of such blocks.
#[derive(Debug, Drop)]
pub struct Block {
    pub(crate) numbers: Numbers,
}

impl Model for Block {
    ghost use Rattle.block_arena.specs.Content.{Content};

    ghost Value = { Content };

    ghost view = { λ block. block.numbers };
}

impl Block {
    /// How many numbers the block has: no more than [`MOST_PIECES`] hold, and no more than the list has room for.
    pub fn len(&self) -> u32
        ensures value { result ≡ length self.now.items }
        ensures greatest { pieces_for (length self.now.items) ≤ MOST_PIECES }
        ensures room { pieces_for (length self.now.items) ≤ self.now.room }
    {
        self.numbers.len()
    }

    /// Whether the block has no numbers.
    pub fn is_empty(&self) -> bool
        ensures { IsTrue result ↔ (length self.now.items ≡ 0) }
    {
        self.len() == 0
    }

    /// How many words the block has taken from its pool.
    pub fn words(&self) -> u32
        ensures { result ≡ words_taken (length self.now.items) }
    {
        pieces_for(self.len()) * PIECE_WORDS
    }

    /// The number at place `i`, from 0; None exactly where `i` is not below the length.
    pub fn get(&self, i: u32) -> Option<i64>
        ensures value { result ≡ slice_get self.now.items i }
        ensures none { IsNone result ↔ (length self.now.items ≤ i) }
    {
        self.numbers.get(i)
    }

    /// Puts `value` at place `i`, from 0.
    pub fn set(&mut self, i: u32, value: i64) -> Result<(), OutOfRange>
        ensures refused { IsErr result ↔ (length self.old.items ≤ i) }
        ensures ok { OnOk result (self.new ≡ record self.old { items = slice_set self.old.items i value }) }
        ensures err { OnErr result (self.new ≡ self.old) }
    {
        self.numbers.set(i, value)
    }

    /// Cuts the block at place `at` into the numbers before it and those from it on.
    ///
    /// The right block becomes the list of `shell`. Where the block can't be cut there, it comes back with
    /// the shell.
    pub fn split(
        self,
        at: u32,
        shell: Shell,
    ) -> Result<(Block, Block), (Block, Shell, SplitRefused)>
        requires { pieces_for (length self.items - at) ≤ shell }
        ensures refused { IsErr result ↔ ((at % PIECE_WORDS ≢ 0) ⊎ (length self.items < at)) }

        ensures cut { OnOk result (IsCut self at) }
        ensures left { IfOk result (λ parts. parts.0 ≡ left_of self at) }
        ensures right { IfOk result (λ parts. parts.1 ≡ right_of self at shell) }

        // A join of the parts is the block that was there.
        ensures joinable { IfOk result (λ parts. CanJoin parts.0 parts.1) }
        ensures rejoined { IfOk result (λ parts. joined parts.0 parts.1 ≡ self) }

        ensures block_back { IfErr result (λ kept. kept.0 ≡ self) }
        ensures shell_back { IfErr result (λ kept. kept.1 ≡ shell) }
    {
        let Block { numbers } = self;
        match numbers.split(at, shell) {
            Ok((left, right)) => Ok((Block { numbers: left }, Block { numbers: right })),
            Err((numbers, shell, refusal)) => Err((Block { numbers }, shell, refusal)),
        }
    }

    /// Gives the list of the block room for at least `pieces` pieces. The numbers stay.
    ///
    /// The list has no more room afterwards than it had or than was asked for; where it has the room, no memory
    /// is needed.
    pub fn make_room(&mut self, pieces: u32) -> Result<(), AllocError>
        ensures ok { OnOk result (self.new ≡ record self.old { room = max self.old.room pieces }) }
        ensures err { OnErr result (self.new ≡ self.old) }
        ensures enough { pieces ≤ self.old.room → IsOk result }
    {
        self.numbers.make_room(pieces)
    }

    /// Whether `right` can be joined to `left`: the condition of [`join`](Block::join).
    pub fn can_join(left: &Block, right: &Block) -> bool
        ensures { IsTrue result ↔ CanJoin left.now right.now }
    {
        Numbers::can_join(&left.numbers, &right.numbers)
    }

    /// Joins two blocks to one that lies in the list of the left one. The right one's list comes back.
    pub fn join(left: Block, right: Block) -> (Block, Shell)
        requires { CanJoin left right }
        ensures block { result.0 ≡ joined left right }
        ensures shell { result.1 ≡ right.room }
    {
        let Block { numbers: first } = left;
        let Block { numbers: second } = right;
        let (numbers, shell) = Numbers::join(first, second);
        (Block { numbers }, shell)
    }
}
