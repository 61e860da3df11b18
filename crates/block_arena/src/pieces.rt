ghost use Rattle.std.specs.Prelude.{◌≡◌, ◌+◌, ◌-◌, ◌*◌, ◌≤◌, ◌++◌, IfOk, take, drop, pos, replicate, vec_len, vec_capacity};
ghost use Rattle.language_limits.specs.declared.TheConstants.{PIECE_WORDS};
ghost use Rattle.block_arena.specs.Pieces.{contents};

use crate::piece::Piece;
use std::alloc::{AllocError, Global};

/// Pieces in one order, each in a place of its own.
pub(crate) type PieceList = Vec<Box<Piece>>;

/// A list of `count` new pieces of zeros.
pub(crate) fn new_pieces(alloc: Global, count: u32) -> Result<PieceList, AllocError>
    ensures len { IfOk result (λ pieces. vec_len pieces ≡ count) }
    ensures room { IfOk result (λ pieces. vec_capacity pieces ≡ count) }
    ensures zeros { IfOk result (λ pieces. contents pieces.items ≡ replicate (PIECE_WORDS * count) (pos 0)) }
{
    let mut pieces = Vec::with_capacity(alloc, count as usize)?;
    for _ in 0..count {
        pieces.push_reserved(Box::new(alloc, Piece::new())?);
    }
    Ok(pieces)
}

/// Moves the pieces of `from` at `keep` and after it to the end of `to`, in their order.
pub(crate) fn move_tail(from: &mut PieceList, keep: usize, to: &mut PieceList)
    requires within { keep ≤ vec_len from.old }
    requires room { vec_len to.old + (vec_len from.old - keep) ≤ vec_capacity to.old }
    ensures kept { from.new.items ≡ take keep from.old.items }
    ensures kept_len { vec_len from.new ≡ keep }
    ensures moved { to.new.items ≡ to.old.items ++ drop keep from.old.items }
    ensures moved_len { vec_len to.new ≡ vec_len to.old + (vec_len from.old - keep) }
    ensures from_room { vec_capacity from.new ≡ vec_capacity from.old }
    ensures to_room { vec_capacity to.new ≡ vec_capacity to.old }
{
    for piece in from.drain(keep..) {
        to.push_reserved(piece);
    }
}

/// Makes all words of the pieces zero.
pub(crate) fn clear_all(pieces: &mut PieceList)
    ensures len { vec_len pieces.new ≡ vec_len pieces.old }
    ensures zeros { contents pieces.new.items ≡ replicate (PIECE_WORDS * vec_len pieces.old) (pos 0) }
    ensures room { vec_capacity pieces.new ≡ vec_capacity pieces.old }
{
    for piece in pieces.iter_mut() {
        piece.clear();
    }
}
