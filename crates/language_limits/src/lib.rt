//! The limits of the language and of a run, each a constant.
//!
//! This page is the lowest of the layers. Code and definitions both cite its constants, so a limit is changed here and nowhere else. It
//! has no theorem: what a limit means is said by the layer that keeps it.
#![tactic(auto)]

/// The most bytes of a source.
pub const LONGEST_TEXT: u32 = 1_048_576;

/// The most functions of a program.
pub const MOST_FUNCTIONS: u32 = 1_024;

/// The most names that one function declares, each as often as it is declared.
pub const MOST_NAMES: u32 = 256;

/// The most bytes of a name.
pub const LONGEST_NAME: u32 = 32;

/// The most constructs of a text that are open at once: `{`, `(`, `[` and signs.
pub const DEEPEST_NESTING: u32 = 64;

/// The greatest number that a text can have.
pub const GREATEST_NUMBER: u64 = 9_223_372_036_854_775_807;

/// The most numbers of a block.
pub const LONGEST_BLOCK: u32 = 1_048_576;

/// The most calls that are open at once, `main` and those open at the forks above among them.
pub const MOST_CALLS: u32 = 10_000;

/// The most loop rounds and calls of one thread.
pub const MOST_TURNS: u32 = 1_000_000;

/// The most forks of `par` above one another.
pub const MOST_FORKS: u32 = 256;

/// The words of a piece, in which blocks, arenas and quotas are counted.
pub const PIECE_WORDS: u32 = 16;

/// The words of the record block that a forked thread holds from its Fork to its End: one piece.
pub const RECORD_WORDS: u32 = PIECE_WORDS;

/// The least quota, in words, and the unit of quotas: one piece.
pub const LEAST_QUOTA: u32 = PIECE_WORDS;

/// The greatest quota, in words.
pub const GREATEST_QUOTA: u32 = 1_048_576;

/// The most leaves of a tree of dummies: the pieces of the longest block, each a quota.
pub const MOST_LEAVES: u32 = 65_536;

/// The most actions of a run.
pub const MOST_ACTIONS: u32 = 4_000_000;

/// The most workers of a run.
pub const MOST_WORKERS: u32 = 64;

/// The most deques of a run.
pub const MOST_DEQUES: u32 = 4_096;

/// The most words of an arena.
pub const MOST_WORDS: u32 = 67_108_864;

/// The most bytes of a trail's text.
pub const MOST_TRAIL: u32 = 33_554_432;

/// The most actions that a trail may allow a play.
pub const MOST_TRAIL_ACTIONS: u32 = 400_000;

/// The greatest count: of the actions of a thread, of the periods begun, of the lines of an output, of the entries of a list.
pub const GREATEST_COUNT: u32 = 4_294_967_295;

/// The most entries of a list of deques: a ready list has one, and one for each record that the greatest arena has room for.
pub const MOST_ENTRIES: u32 = 4_194_305;

/// The most groups of a made source.
pub const MOST_GROUPS: u32 = 8_000;

/// The greatest seed: each number of 64 bits is a seed.
pub const GREATEST_SEED: u64 = u64::MAX;

/// The quota of a command that names none.
pub const DEFAULT_QUOTA: u32 = 4_096;

/// The workers of a command that names no number.
pub const DEFAULT_WORKERS: u32 = 4;

/// The words of the arena of a command that names none.
pub const DEFAULT_ARENA: u32 = 1_048_576;

/// The seed of a command that names none.
pub const DEFAULT_SEED: u64 = 1;
