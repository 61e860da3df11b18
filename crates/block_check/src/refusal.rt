ghost use Rattle.std.specs.Prelude.{◌≡◌};
ghost use Rattle.block_check.specs.declared.refusal.Fail.TheVariants.{Memory};

use crate::entry::Entry;
use par_ownership::CheckKind;
use std::alloc::{AllocError, AllocFailed};

/// That a rule is kept, or why the walk ends.
pub(crate) type Tested<'a> = Result<(), Fail<'a>>;

/// The visible names after a step of the walk, or why it ends.
pub(crate) type Walked<'a> = Result<Vec<Entry<'a>>, Fail<'a>>;

/// Why the walk ends.
#[derive(Drop)]
pub(crate) enum Fail<'a> {
    /// There was not enough memory.
    Memory,
    /// A rule is broken.
    Refused(Refusal<'a>),
}

/// The first refusal that the walk meets.
#[derive(Drop)]
pub(crate) struct Refusal<'a> {
    pub kind: CheckKind,
    pub line: u32,
    pub name: &'a [u8],
}

impl From<AllocError> for Fail<'_> {
    ghost from_gives = { λ _ e. e ≡ Memory };

    fn from(_e: AllocError) -> Self {
        Fail::Memory
    }
}

impl<T: Drop> From<AllocFailed<T>> for Fail<'_> {
    ghost from_gives = { λ _ e. e ≡ Memory };

    fn from(_e: AllocFailed<T>) -> Self {
        Fail::Memory
    }
}
