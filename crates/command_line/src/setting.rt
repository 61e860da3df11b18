ghost use Rattle.std.specs.Prelude.{◌≡◌, MatchOption};
ghost use Rattle.command_line.specs.Arguments.{name_of, rule_of};
ghost use Rattle.command_line.specs.declared.setting.Setting.{Setting};

use crate::command_kind::CommandKind;
use crate::rule::Rule;
use language_limits::{
    DEFAULT_ARENA, DEFAULT_QUOTA, DEFAULT_SEED, DEFAULT_WORKERS, GREATEST_QUOTA, GREATEST_SEED,
    LEAST_QUOTA, MOST_DEQUES, MOST_WORDS, MOST_WORKERS,
};

/// An option of a command.
#[derive(Clone, Copy, PartialEq, Eq, Debug)]
pub enum Setting {
    /// `--k`: the quota.
    Quota,
    /// `--p`: the number of workers.
    Workers,
    /// `--arena`: the limit of words.
    Arena,
    /// `--steps`: the limit of actions.
    Steps,
    /// `--deques`: the limit of deques.
    Deques,
    /// `--seed`: what the draws of the workers begin with.
    Seed,
}

impl Setting {
    /// The option of this name.
    pub fn named(name: &[u8]) -> Option<Setting>
        ensures { MatchOption result ((s : Setting) → ¬ (name.now ≡ name_of s)) (λ s. name.now ≡ name_of s) }
    {
        if name == b"k".as_slice() {
            Some(Setting::Quota)
        } else if name == b"p".as_slice() {
            Some(Setting::Workers)
        } else if name == b"arena".as_slice() {
            Some(Setting::Arena)
        } else if name == b"steps".as_slice() {
            Some(Setting::Steps)
        } else if name == b"deques".as_slice() {
            Some(Setting::Deques)
        } else if name == b"seed".as_slice() {
            Some(Setting::Seed)
        } else {
            None
        }
    }

    /// The numbers that the option may have in a command. The words of a quota and of an arena are whole pieces.
    pub fn rule(self, kind: CommandKind) -> Rule
        ensures { result ≡ rule_of kind self }
    {
        match self {
            Setting::Quota => Rule::short(LEAST_QUOTA, GREATEST_QUOTA, LEAST_QUOTA, DEFAULT_QUOTA),
            Setting::Workers => Rule::short(1, MOST_WORKERS, 1, DEFAULT_WORKERS),
            Setting::Arena => Rule::short(LEAST_QUOTA, MOST_WORDS, LEAST_QUOTA, DEFAULT_ARENA),
            Setting::Steps => Rule::short(1, kind.most_steps(), 1, kind.most_steps()),
            Setting::Deques => Rule::short(1, MOST_DEQUES, 1, MOST_DEQUES),
            Setting::Seed => Rule {
                least: 0,
                most: GREATEST_SEED,
                unit: 1,
                default: DEFAULT_SEED,
            },
        }
    }
}
