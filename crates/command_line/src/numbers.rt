ghost use Rattle.std.specs.Prelude.{◌≡◌, ◌<◌, ◌^◌, if◌then◌else◌, Option, None, Some, MatchOption, IsTrue, is_some};
ghost use Rattle.command_line.specs.Arguments.{wants_groups};
ghost use Rattle.command_line.specs.Reading.{slot, or_default, no_numbers, IsWith, MoreFit, NoneFit, MoreTell, NoneTell};

use crate::command_kind::CommandKind;
use crate::setting::Setting;
use crate::value::{groups_in, number_for};

/// The numbers that the arguments give: to the options, and of groups.
#[derive(Clone, Copy)]
pub struct Numbers {
    pub quota: Option<u64>,
    pub workers: Option<u64>,
    pub arena: Option<u64>,
    pub steps: Option<u64>,
    pub deques: Option<u64>,
    pub seed: Option<u64>,
    pub groups: Option<u32>,
}

impl Numbers {
    /// Nothing was given.
    pub fn none() -> Numbers
        ensures { result ≡ no_numbers }
    {
        Numbers {
            quota: None,
            workers: None,
            arena: None,
            steps: None,
            deques: None,
            seed: None,
            groups: None,
        }
    }

    /// The number that was given to an option.
    fn given(self, setting: Setting) -> Option<u64>
        ensures { result ≡ slot self setting }
    {
        match setting {
            Setting::Quota => self.quota,
            Setting::Workers => self.workers,
            Setting::Arena => self.arena,
            Setting::Steps => self.steps,
            Setting::Deques => self.deques,
            Setting::Seed => self.seed,
        }
    }

    /// The same with a number for one option.
    fn with(self, setting: Setting, number: u64) -> Numbers
        ensures option { IsWith self setting number result }
        ensures groups { result.groups ≡ self.groups }
    {
        let mut more = self;
        match setting {
            Setting::Quota => more.quota = Some(number),
            Setting::Workers => more.workers = Some(number),
            Setting::Arena => more.arena = Some(number),
            Setting::Steps => more.steps = Some(number),
            Setting::Deques => more.deques = Some(number),
            Setting::Seed => more.seed = Some(number),
        }
        more
    }

    /// The number of an option in a command: what was given to it, or its default.
    pub fn number(self, kind: CommandKind, setting: Setting) -> u64
        ensures { result ≡ or_default kind setting (slot self setting) }
    {
        self.given(setting).unwrap_or(setting.rule(kind).default)
    }

    /// The same number where it has 32 bits.
    pub fn short_number(self, kind: CommandKind, setting: Setting) -> u32
        requires { or_default kind setting (slot self setting) < 2 ^ 32 }
        ensures { result ≡ or_default kind setting (slot self setting) }
    {
        self.number(kind, setting) as u32
    }

    /// The same with the value of one option more. None where the command has no such option, where it was given
    /// before, or where it may not have this value.
    pub fn more(self, kind: CommandKind, setting: Setting, value: &[u8]) -> Option<Numbers>
        ensures { MatchOption result (NoneFit kind self setting value.now) (λ more. MoreFit kind self setting value.now more) }
    {
        if !kind.has(setting) {
            return None;
        }
        if self.given(setting).is_some() {
            return None;
        }
        let number = number_for(kind, setting, value)?;
        Some(self.with(setting, number))
    }

    /// The same with the number of groups that a plain argument tells. None where the command wants none, where one was told
    /// before, or where the argument tells none.
    pub fn more_groups(self, kind: CommandKind, argument: &[u8]) -> Option<Numbers>
        ensures { MatchOption result (NoneTell kind self argument.now) (λ more. MoreTell kind self argument.now more) }
    {
        if !kind.wants_groups() {
            return None;
        }
        if self.groups.is_some() {
            return None;
        }
        let groups = groups_in(argument)?;
        let mut more = self;
        more.groups = Some(groups);
        Some(more)
    }

    /// How many groups a command has: what was told, where it wants groups, and else 0. None where the number is missing.
    pub fn groups_of(self, kind: CommandKind) -> Option<u32>
        ensures { result ≡ (if wants_groups kind then self.groups else Some 0) }
    {
        if kind.wants_groups() {
            return self.groups;
        }
        Some(0)
    }
}
