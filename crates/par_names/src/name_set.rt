use std::alloc::{AllocError, Global};
use std::collections::BTreeSet;

/// A set of names. It is let go by a call, so that the steps of that are proved once, and not at each exit of what owns one.
pub(crate) struct NameSet<'a> {
    pub(crate) names: BTreeSet<&'a [u8]>,
}

impl Drop for NameSet<'_> {
    fn drop(self) {
        let NameSet { names: _names } = self;
    }
}

impl<'a> NameSet<'a> {
    ghost use Rattle.std.specs.Prelude.{◌≡◌, ℕ, List, true, IfOk};
    ghost use Rattle.par_tree.specs.Names.{is_among};
    ghost use Rattle.par_names.specs.Sets.{names_behind, has, is_asked};

    /// The names in a list that are asked for.
    pub(crate) fn of(
        alloc: Global,
        asked: &Option<NameSet>,
        list: &[&'a [u8]],
    ) -> Result<Self, AllocError>
        ensures { IfOk result (λ s. (x : List ℕ) → is_asked asked.now x ≡ true → has s x ≡ is_among x (names_behind list.now)) }
    {
        let mut names = BTreeSet::new(alloc);
        for name in list {
            if !is_asked(asked, name) {
                continue;
            }
            names.insert(*name)?;
        }
        Ok(NameSet { names })
    }

    /// Whether the set has a name.
    pub(crate) fn has(&self, name: &[u8]) -> bool
        ensures { result ≡ has self.now name.now }
    {
        self.names.contains(name)
    }
}

ghost use Rattle.std.specs.Prelude.{◌≡◌};
ghost use Rattle.par_names.specs.Sets.{is_asked};

/// Whether a name is asked for: it is in the set, or there is none.
pub(crate) fn is_asked(asked: &Option<NameSet>, name: &[u8]) -> bool
    ensures { result ≡ is_asked asked.now name.now }
{
    match asked {
        None => true,
        Some(set) => set.has(name),
    }
}
