ghost use Rattle.std.specs.Prelude.{◌≡◌, ◌++◌, MatchOption};
ghost use Rattle.trail_meaning.specs.Ranges.{FitSetting};
ghost use Rattle.trail_text.specs.TrailText.{head_line};
ghost use Rattle.trail_text.specs.Lines.{NoHead};

use crate::numbers::within;
use language_limits::{
    GREATEST_QUOTA, LEAST_QUOTA, MOST_DEQUES, MOST_TRAIL_ACTIONS, MOST_WORDS, MOST_WORKERS,
};

/// The setting of a play.
#[derive(Clone, Copy)]
pub struct Head {
    /// The quota, in words.
    pub k: u32,
    /// The number of workers.
    pub p: u32,
    /// The most words in use at once, in words.
    pub arena: u32,
    /// The most actions.
    pub steps: u32,
    /// The most deques at once.
    pub deques: u32,
}

/// Returns the setting in the first line of a trail, and the bytes after that line.
pub fn read_head(bytes: &[u8]) -> Option<(Head, &[u8])>
    ensures { MatchOption result (NoHead bytes.now)
        (λ next. (bytes.now ≡ head_line next.0.k next.0.p next.0.arena next.0.steps next.0.deques ++ next.1.now)
        × FitSetting next.0.k next.0.p next.0.arena next.0.steps next.0.deques) }
{
    let (k, at_p) = within(bytes, "trail k ", b' ', LEAST_QUOTA, GREATEST_QUOTA)?;
    let (p, at_arena) = within(at_p, "p ", b' ', 1, MOST_WORKERS)?;
    let (arena, at_steps) = within(at_arena, "arena ", b' ', LEAST_QUOTA, MOST_WORDS)?;
    let (steps, at_deques) = within(at_steps, "steps ", b' ', 1, MOST_TRAIL_ACTIONS)?;
    let (deques, after) = within(at_deques, "deques ", b'\n', 1, MOST_DEQUES)?;
    if k % LEAST_QUOTA != 0 {
        return None;
    }
    if arena % LEAST_QUOTA != 0 {
        return None;
    }
    let head = Head {
        k,
        p,
        arena,
        steps,
        deques,
    };
    Some((head, after))
}
