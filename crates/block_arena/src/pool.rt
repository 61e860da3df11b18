ghost use Rattle.std.specs.Prelude.{◌≡◌, ◌≢◌, ◌+◌, ◌%◌, ◌<◌, ◌≤◌, ◌*◌, ◌^◌, ◌↔◌, ◌⊎◌, length, IsErr, IsNone, IfOk, IfErr, OnOk, OnErr, OnSome};
ghost use Rattle.block_arena.specs.Size.{pieces_for, words_taken};
ghost use Rattle.block_arena.specs.Region.{IsWhole, IsSound, fresh_region, with_taken, with_given};
ghost use Rattle.block_arena.specs.Content.{zeros};

use crate::block::Block;
use crate::error::{Full, PoolError};
use crate::numbers::Numbers;
use crate::pieces::{PieceList, clear_all, move_tail, new_pieces};
use crate::record_block::RecordBlock;
use crate::shell::Shell;
use crate::size::{MOST_COUNTED, MOST_PIECES, pieces_for};
use language_limits::{MOST_WORDS, PIECE_WORDS};
use std::alloc::{AllocError, Global};
use std::marker::Model;

/// The pieces that are not out in blocks.
///
/// All pieces are made by [`Pool::new`] and [`Pool::make_room`]. From then on each lies in the pool or in a block, in one
/// place, and moves. It is of no account which pieces lie in the pool, so none that is free is ever out of reach.
#[derive(Debug, Drop)]
pub struct Pool {
    free: PieceList,
    capacity: u64,
    live: u64,
    high: u64,
}

impl Model for Pool {
    ghost use Rattle.std.specs.Prelude.{vec_len, vec_capacity};
    ghost use Rattle.block_arena.specs.Region.{Region, region_of, KeepsPieces};

    ghost Value = { Region };

    ghost view = { λ pool. region_of pool.capacity pool.live pool.high };

    ghost invariant = { λ pool. KeepsPieces (vec_len pool.free) (vec_capacity pool.free) (region_of pool.capacity pool.live pool.high) };
}

impl Pool {
    /// A pool of `words` words, all of them free.
    pub fn new(alloc: Global, words: u32) -> Result<Pool, PoolError>
        ensures ok { IfOk result (λ pool. pool ≡ fresh_region words) }
        ensures whole { OnOk result (IsWhole words) }
        ensures sound { IfOk result IsSound }

        // The words are tested before any memory is asked for.
        ensures not_whole { (result ≡ Err PoolError.NotWhole) ↔ ((words % PIECE_WORDS ≢ 0) ⊎ (words ≡ 0)) }
        ensures too_large { (result ≡ Err PoolError.TooLarge) ↔ (IsWhole words × (MOST_WORDS < words)) }
    {
        if words % PIECE_WORDS != 0 || words == 0 {
            return Err(PoolError::NotWhole);
        }
        if MOST_WORDS < words {
            return Err(PoolError::TooLarge);
        }
        let Ok(free) = new_pieces(alloc, words / PIECE_WORDS) else {
            return Err(PoolError::OutOfMemory);
        };
        Ok(Pool {
            free,
            capacity: u64::from(words),
            live: 0,
            high: 0,
        })
    }

    /// How many words the pool has.
    pub fn capacity(&self) -> u64
        ensures value { result ≡ self.now.capacity }
        ensures sound { IsSound self.now }
    {
        self.capacity
    }

    /// How many words are out in blocks.
    pub fn live(&self) -> u64
        ensures value { result ≡ self.now.live }
        ensures sound { IsSound self.now }
    {
        self.live
    }

    /// The most words that ever were out at once.
    pub fn high(&self) -> u64
        ensures value { result ≡ self.now.high }
        ensures sound { IsSound self.now }
    {
        self.high
    }

    /// Makes the pieces that are wanting to a block of `words` words beside those that are out, if any are.
    ///
    /// # Errors
    ///
    /// There is not enough memory. The pool is as it was.
    pub fn make_room(&mut self, alloc: Global, words: u32) -> Result<(), AllocError>
        ensures live { self.new.live ≡ self.old.live }
        ensures high { self.new.high ≡ self.old.high }
        ensures room { OnOk result (self.new.live + words_taken words ≤ self.new.capacity) }
        ensures err { OnErr result (self.new ≡ self.old) }
    {
        let count = u64::from(pieces_for(words));
        let free = self.free.len() as u64;
        if count <= free {
            return Ok(());
        }
        self.grow(alloc, count - free)
    }

    /// Makes so many pieces more.
    ///
    /// # Errors
    ///
    /// There is not enough memory, or the words would be more than are counted, which no memory has. The pool is as it was.
    fn grow(&mut self, alloc: Global, count: u64) -> Result<(), AllocError>
        requires few { count < 2 ^ 32 }
        ensures live { self.new.live ≡ self.old.live }
        ensures high { self.new.high ≡ self.old.high }
        ensures more { OnOk result (self.new.capacity ≡ self.old.capacity + PIECE_WORDS * count) }
        ensures err { OnErr result (self.new ≡ self.old) }
    {
        let capacity = self.capacity + count * u64::from(PIECE_WORDS);
        if MOST_COUNTED < capacity {
            return Err(AllocError);
        }
        let mut more = new_pieces(alloc, count as u32)?;
        let room = (capacity / u64::from(PIECE_WORDS)) as usize;
        self.free.reserve(room - self.free.len())?;
        move_tail(&mut more, 0, &mut self.free);
        self.capacity = capacity;
        Ok(())
    }

    /// Takes a block of `words` zeros out of the pool. It becomes the list of `shell`.
    ///
    /// It is refused only where the words that are out and those of the block are more than the pool has.
    pub fn take(&mut self, words: u32, shell: Shell) -> Result<Block, Full>
        requires shell { pieces_for words ≤ shell }
        requires few { pieces_for words ≤ MOST_PIECES }
        // Which pieces are free is of no account, only how many.
        ensures full { IsErr result ↔ (self.old.capacity < self.old.live + words_taken words) }

        ensures block { IfOk result (λ block. block ≡ zeros words shell) }
        ensures taken { OnOk result (self.new ≡ with_taken self.old (words_taken words)) }

        ensures told { IfErr result (λ refusal. refusal ≡ record { live = self.old.live; asked = words_taken words; shell = shell }) }
        ensures unchanged { OnErr result (self.new ≡ self.old) }
    {
        let count = pieces_for(words);
        let asked = u64::from(count) * u64::from(PIECE_WORDS);
        if self.capacity < self.live + asked {
            return Err(Full {
                live: self.live,
                asked,
                shell,
            });
        }
        let mut pieces = shell.into_list();
        let keep = self.free.len() - count as usize;
        move_tail(&mut self.free, keep, &mut pieces);
        clear_all(&mut pieces);
        self.live += asked;
        self.high = self.high.max(self.live);
        let numbers = Numbers { pieces, len: words };
        Ok(Block { numbers })
    }

    /// Gives a block back to the pool. Its list comes back, empty.
    pub fn give(&mut self, block: Block) -> Shell
        requires { words_taken (length block.items) ≤ self.old.live }
        ensures given { self.new ≡ with_given self.old (words_taken (length block.items)) }
        ensures shell { result ≡ block.room }
    {
        self.live -= u64::from(block.words());
        let Block { numbers } = block;
        let Numbers { mut pieces, .. } = numbers;
        move_tail(&mut pieces, 0, &mut self.free);
        Shell::from_list(pieces)
    }

    /// Takes the 16 words of a record out of the pool, in one piece. No memory is needed.
    ///
    /// It is refused only where the words that are out and these are more than the pool has.
    pub fn take_record(&mut self) -> Option<RecordBlock>
        ensures full { IsNone result ↔ (self.old.capacity < self.old.live + PIECE_WORDS) }
        ensures taken { OnSome result (self.new ≡ with_taken self.old PIECE_WORDS) }
        ensures unchanged { IsNone result → self.new ≡ self.old }
    {
        let piece = self.free.pop()?;
        self.live += u64::from(PIECE_WORDS);
        self.high = self.high.max(self.live);
        Some(RecordBlock { piece })
    }

    /// Gives the words of a record back to the pool. No memory is needed.
    pub fn give_record(&mut self, block: RecordBlock)
        requires { PIECE_WORDS ≤ self.old.live }
        ensures { self.new ≡ with_given self.old PIECE_WORDS }
    {
        self.live -= u64::from(PIECE_WORDS);
        self.free.push_reserved(block.piece);
    }
}
