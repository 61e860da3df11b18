ghost use Rattle.std.specs.Prelude.{◌≡◌, ◌≤◌, ◌<◌, ◌-◌, ◌↔◌, ◌⊎◌, ◌≢◌, ◌%◌, ◌^◌, length, max, slice_get, slice_set, IsOk, IsErr, IsNone, IsTrue, IfOk, IfErr, OnOk, OnErr};
ghost use Rattle.block_arena.specs.Size.{pieces_for};
ghost use Rattle.block_arena.specs.Content.{zeros, left_of, right_of, joined, IsCut, CanJoin};

use crate::error::{OutOfRange, SplitRefused};
use crate::pieces::{PieceList, move_tail};
use crate::shell::Shell;
use crate::size::{MOST_PIECES, pieces_for};
use language_limits::PIECE_WORDS;
use std::alloc::AllocError;
use std::marker::Model;

/// A list of numbers that lies in pieces, wherever these came from.
#[derive(Debug, Drop)]
pub(crate) struct Numbers {
    pub(crate) pieces: PieceList,
    pub(crate) len: u32,
}

impl Model for Numbers {
    ghost use Rattle.std.specs.Prelude.{vec_len, vec_capacity};
    ghost use Rattle.block_arena.specs.Content.{Content, HoldsPieces};
    ghost use Rattle.block_arena.specs.Pieces.{block_in};

    ghost Value = { Content };

    ghost view = { λ block. block_in block.pieces block.len };

    ghost invariant = { λ block. HoldsPieces (vec_len block.pieces) (vec_capacity block.pieces) block.len };
}

impl Numbers {
    /// How many numbers there are: no more than [`MOST_PIECES`] hold, and no more than the list has room for.
    pub(crate) fn len(&self) -> u32
        ensures value { result ≡ length self.now.items }
        ensures greatest { pieces_for (length self.now.items) ≤ MOST_PIECES }
        ensures room { pieces_for (length self.now.items) ≤ self.now.room }
    {
        self.len
    }

    /// The number at place `i`, from 0; None exactly where `i` is not below the length.
    pub(crate) fn get(&self, i: u32) -> Option<i64>
        ensures value { result ≡ slice_get self.now.items i }
        ensures none { IsNone result ↔ (length self.now.items ≤ i) }
    {
        if self.len <= i {
            return None;
        }
        let piece = &self.pieces[(i / PIECE_WORDS) as usize];
        Some(piece.get((i % PIECE_WORDS) as usize))
    }

    /// Puts `value` at place `i`, from 0.
    pub(crate) fn set(&mut self, i: u32, value: i64) -> Result<(), OutOfRange>
        ensures refused { IsErr result ↔ (length self.old.items ≤ i) }
        ensures ok { OnOk result (self.new ≡ record self.old { items = slice_set self.old.items i value }) }
        ensures err { OnErr result (self.new ≡ self.old) }
    {
        if self.len <= i {
            return Err(OutOfRange);
        }
        let piece = &mut self.pieces[(i / PIECE_WORDS) as usize];
        piece.set((i % PIECE_WORDS) as usize, value);
        Ok(())
    }

    /// Cuts the numbers at place `at` into those before it and those from it on, which lie in the list of
    /// `shell`. Where they can't be cut there, all comes back.
    pub(crate) fn split(
        self,
        at: u32,
        shell: Shell,
    ) -> Result<(Numbers, Numbers), (Numbers, Shell, SplitRefused)>
        requires { pieces_for (length self.items - at) ≤ shell }
        ensures refused { IsErr result ↔ ((at % PIECE_WORDS ≢ 0) ⊎ (length self.items < at)) }

        ensures cut { OnOk result (IsCut self at) }
        ensures left { IfOk result (λ parts. parts.0 ≡ left_of self at) }
        ensures right { IfOk result (λ parts. parts.1 ≡ right_of self at shell) }

        ensures joinable { IfOk result (λ parts. CanJoin parts.0 parts.1) }
        ensures rejoined { IfOk result (λ parts. joined parts.0 parts.1 ≡ self) }

        ensures block_back { IfErr result (λ kept. kept.0 ≡ self) }
        ensures shell_back { IfErr result (λ kept. kept.1 ≡ shell) }
    {
        if at % PIECE_WORDS != 0 || self.len < at {
            return Err((self, shell, SplitRefused));
        }
        let Numbers { mut pieces, len } = self;
        let mut rest = shell.into_list();
        move_tail(&mut pieces, (at / PIECE_WORDS) as usize, &mut rest);
        let left = Numbers { pieces, len: at };
        let right = Numbers {
            pieces: rest,
            len: len - at,
        };
        Ok((left, right))
    }

    /// Whether `right` can be joined to `left`.
    pub(crate) fn can_join(left: &Numbers, right: &Numbers) -> bool
        ensures { IsTrue result ↔ CanJoin left.now right.now }
    {
        let pieces = pieces_for(left.len) + pieces_for(right.len);
        if left.len % PIECE_WORDS != 0 {
            return false;
        }
        if left.pieces.capacity() < pieces as usize {
            return false;
        }
        if MOST_PIECES < pieces {
            return false;
        }
        true
    }

    /// Gives the list room for at least `pieces` pieces.
    pub(crate) fn make_room(&mut self, pieces: u32) -> Result<(), AllocError>
        ensures ok { OnOk result (self.new ≡ record self.old { room = max self.old.room pieces }) }
        ensures err { OnErr result (self.new ≡ self.old) }
        ensures enough { pieces ≤ self.old.room → IsOk result }
    {
        let more = (pieces as usize).saturating_sub(self.pieces.len());
        self.pieces.reserve_exact(more)
    }

    /// Joins two lists to one that lies in the list of the left one. The right one's list comes back.
    pub(crate) fn join(left: Numbers, right: Numbers) -> (Numbers, Shell)
        requires { CanJoin left right }
        ensures block { result.0 ≡ joined left right }
        ensures shell { result.1 ≡ right.room }
    {
        let Numbers { mut pieces, len } = left;
        let Numbers {
            pieces: mut rest,
            len: more,
        } = right;
        move_tail(&mut rest, 0, &mut pieces);
        let whole = Numbers {
            pieces,
            len: len + more,
        };
        (whole, Shell::from_list(rest))
    }
}
