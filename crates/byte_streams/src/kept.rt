ghost use Rattle.std.specs.Prelude.{◌≡◌, ◌≤◌, ◌+◌, [], Some, None, IsSome, IfSome, IfOk, length, vec_len, vec_capacity};
ghost use Rattle.byte_streams.specs.Sink.{Takes};

use std::alloc::{AllocError, Global};

/// The bytes that a sink in memory took, as long as it kept them all.
#[derive(Drop)]
pub struct Kept {
    bytes: Vec<u8>,
    is_whole: bool,
}

impl Kept {
    ghost use Rattle.byte_streams.specs.Kept.{told, KeepsPiece};

    /// No bytes yet. It takes no memory.
    pub fn new(alloc: Global) -> Kept
        ensures { told result ≡ Some [] }
    {
        Kept {
            bytes: Vec::new(alloc),
            is_whole: true,
        }
    }

    /// No bytes yet, and room for so many.
    pub fn with_room(alloc: Global, room: usize) -> Result<Kept, AllocError>
        ensures told { IfOk result (λ kept. told kept ≡ Some []) }
        ensures room { IfOk result (λ kept. room ≤ vec_capacity kept.bytes) }
    {
        Ok(Kept {
            bytes: Vec::with_capacity(alloc, room)?,
            is_whole: true,
        })
    }

    /// The bytes that were kept.
    pub fn bytes(&self) -> &[u8]
        ensures told { IfSome (told self.now) (λ kept. result.now ≡ kept) }
        ensures kept { result.now ≡ self.now.bytes.items }
        ensures len { length result.now ≡ vec_len self.now.bytes }
    {
        &self.bytes
    }

    /// Keeps a piece behind the others, or, where there is no memory for it, keeps nothing from then on.
    pub fn keep(&mut self, piece: &[u8])
        ensures takes { Takes (told self.old) (told self.new) piece.now }
        ensures exact { KeepsPiece self.old self.new piece.now }
        ensures room { vec_capacity self.old.bytes ≤ vec_capacity self.new.bytes }
        ensures keeps { vec_len self.old.bytes + length piece.now ≤ vec_capacity self.old.bytes →
            IsSome (told self.old) → IsSome (told self.new) }
    {
        if self.is_whole && self.bytes.extend_from_slice(piece).is_err() {
            self.is_whole = false;
        }
    }

    /// Keeps nothing from then on.
    pub fn stop(&mut self)
        ensures told { told self.new ≡ None }
        ensures bytes { self.new.bytes ≡ self.old.bytes }
    {
        self.is_whole = false;
    }
}
