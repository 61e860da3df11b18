//! The region of memory that all blocks of a run come from: a pool of pieces of 16 words.
//!
//! A [`Pool`] makes its pieces once, and more of them where it is asked for room. A [`Block`] is a list of numbers that
//! lies in pieces, which it takes out of the pool and gives back to it. It comes from [`Pool::take`], and from cuts and joins of such blocks,
//! and from nothing else. Its pieces move and are never copied or made anew, so blocks are taken, given, cut and
//! joined without memory: the list that holds the pieces of a block was had before, as a [`Shell`], or was given
//! room by [`Block::make_room`].
//!
//! A [`RecordBlock`] is the 16 words which a forked thread takes: one piece without a list, so it needs no shell.
//! Nobody reads or writes its words, and only their count is told.
//!
//! The layer stands on std alone. Its theorem is the pool law:
//!
//! - Each piece of a pool lies in it or is out, in one place. The words that are out are 16 times the pieces
//!   that are out: `take` raises them by the words of the block, and `give` lowers them by just these.
//!   `take_record` raises them by 16, and `give_record` lowers them by 16.
//! - `take` and `take_record` are refused exactly where the words that are out and those asked for are more than
//!   the pool has, however the free pieces lie.
//! - A block is its list of numbers. It is zeros when it is taken; `set` writes one place, `split` cuts the list
//!   between two pieces, `join` appends one list to another, and a join of what was split is the block that was
//!   there.
//!
//! That a piece lies in one place is Rust's ownership: a piece is a box that moves. That none is lost is the
//! invariant of `Pool`, and that a block has just the pieces that its length needs is the invariant of `Block`.
//!
//! # Why
//!
//! - **A piece is a box that moves.** The pool and each block hold a list of boxes of 16 words. So ownership says that a piece is in one place.
//!   The compiler checks this, and no index has to be kept right. The price is the allocator's own. On Linux each box of 128 bytes takes 144,
//!   so the greatest pool, whose words are 512 MB, takes about 604 MB, and 8 bytes a piece more for the list. Nothing is copied: a block's
//!   words are the pool's.
//! - **Only how many pieces are free counts, not which.** `take` takes the last pieces of the list. So a pool never refuses because free pieces
//!   are scattered, and `take` and `give` cost only the pieces of the block.
//! - **Pieces are cleared at `take`**, not at `give`, so `Pool` needs no invariant on what free pieces hold.
//! - **A block can be given to another pool than it came from**, if as many words are in use there. Pieces are all alike, and each pool still
//!   has its words: 16 times its free pieces, and the words in use, are its capacity. `Pool::new` takes the room for a pool's pieces, so giving
//!   takes no memory.
//! - **The list of a block comes from a `Shell`**, an empty list whose room is taken beforehand. So `take`, `give`, `split` and `join` take no
//!   memory, and a shell that is refused or left over comes back with its room.
//! - **Contracts see the room of a shell and of a block** because `join` needs it: the left block's list must hold the pieces of both. `split`
//!   leaves the left block the room of the whole and ensures `CanJoin`, so what was split can always be joined again.
//! - **A pool can grow**, by `make_room`: the depth-first run has no arena, so it makes the pieces that it needs, and keeps them for later
//!   blocks. A pool counts up to 2^62 words, more than any memory has; the limit of an arena is a test of `Pool::new`. A block has at most
//!   268,435,455 pieces, so that 32 bits count its words.
//! - **Whether two blocks can be joined can be tested, and met**: `can_join` says it exactly. `make_room` makes the room that a left block
//!   lacks, or leaves it unchanged.
#![tactic(auto)]

mod block;
mod error;
mod numbers;
mod piece;
mod pieces;
mod pool;
mod record_block;
mod shell;
mod size;

pub use block::Block;
pub use error::{Full, OutOfRange, PoolError, SplitRefused};
pub use pool::Pool;
pub use record_block::RecordBlock;
pub use shell::Shell;
pub use size::{MOST_COUNTED, MOST_PIECES, pieces_for};
