ghost use Rattle.std.specs.Prelude.{◌≡◌, ◌≤◌, ◌<◌, ◌^◌, ℕ, [], IfOk, vec_len, vec_capacity};

use crate::pieces::PieceList;
use std::alloc::{AllocError, Global};
use std::marker::Model;

/// An empty list with room for pieces, which becomes the list of a block.
///
/// All the memory that taking, cutting and joining blocks needs is had here, beforehand.
#[derive(Debug, Drop)]
pub struct Shell {
    pieces: PieceList,
}

impl Model for Shell {
    ghost Value = { ℕ };

    ghost view = { λ shell. vec_capacity shell.pieces };

    ghost invariant = { λ shell. (vec_len shell.pieces ≡ 0) × (vec_capacity shell.pieces < 2 ^ 32) };
}

impl Shell {
    /// A shell with room for `pieces` pieces.
    pub fn with_room(alloc: Global, pieces: u32) -> Result<Shell, AllocError>
        ensures { IfOk result (λ shell. shell ≡ pieces) }
    {
        Ok(Shell {
            pieces: Vec::with_capacity(alloc, pieces as usize)?,
        })
    }

    /// For how many pieces the shell has room.
    pub fn room(&self) -> u32
        ensures { result ≡ self.now }
    {
        self.pieces.capacity() as u32
    }

    pub(crate) fn from_list(pieces: PieceList) -> Shell
        requires empty { vec_len pieces ≡ 0 }
        requires room { vec_capacity pieces < 2 ^ 32 }
        ensures { result ≡ vec_capacity pieces }
    {
        Shell { pieces }
    }

    pub(crate) fn into_list(self) -> PieceList
        ensures empty { result.items ≡ [] }
        ensures len { vec_len result ≡ 0 }
        ensures room { vec_capacity result ≡ self }
        ensures short { self < 2 ^ 32 }
    {
        let Shell { pieces } = self;
        pieces
    }
}
