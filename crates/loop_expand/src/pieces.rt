//! Pieces of a text.

ghost use Rattle.std.specs.Prelude.{◌≡◌, ◌++◌, IfOk};
ghost use Rattle.std.specs.List.{flat_map};
ghost use Rattle.loop_expand.specs.Gives.{piece_shown};

use std::alloc::AllocError;

/// Writes the pieces, one after the other.
pub(crate) fn write_all(pieces: &[&[u8]], out: &mut Vec<u8>) -> Result<(), AllocError>
    ensures { IfOk result (λ _. out.new.items ≡ out.old.items ++ flat_map piece_shown pieces.now) }
{
    'pieces: for piece in pieces {
        out.extend_from_slice(piece)?;
    }
    Ok(())
}
