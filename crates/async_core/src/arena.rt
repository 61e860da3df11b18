ghost use Rattle.std.specs.Prelude.{◌≡◌, ◌≤◌, ◌<◌, ◌↔◌, IsNone, IfSome};
ghost use Rattle.language_limits.specs.declared.TheConstants.{MOST_WORDS as MOST};

use block_arena::Pool;
use language_limits::MOST_WORDS;

/// A pool that has no more words than an arena may have.
#[derive(Drop)]
pub struct Arena {
    pub(crate) pool: Pool,
    pub ghost few: { pool.capacity ≤ MOST },
}

impl Arena {
    /// Returns the pool as an arena; None exactly if it has more words than an arena may have.
    pub fn of(pool: Pool) -> Option<Arena>
        ensures none { IsNone result ↔ (MOST < pool.capacity) }
        ensures pool { IfSome result (λ arena. arena.pool ≡ pool) }
    {
        if u64::from(MOST_WORDS) < pool.capacity() {
            return None;
        }
        Some(Arena { pool })
    }
}
