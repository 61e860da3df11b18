ghost use Rattle.std.specs.Prelude.{◌≡◌, ℕ, ◌≤◌, ◌<◌, ◌^◌, ◌++◌, ◌↔◌, [], ◌∷◌, length, IsTrue, IfOk};

use containers::BoundedList;
use std::alloc::{AllocError, Global};
use std::marker::Model;

/// Where a thread stands in the program: the ordinals of the forks from the root down to it.
///
/// The root's label is empty, and fork `k`, from 1, of a thread gives a child whose label is the thread's
/// with `k` behind it. Contracts see a label as that list.
#[derive(Debug, Drop)]
pub struct Label {
    ordinals: BoundedList<u32>,
}

impl Model for Label {
    ghost use Rattle.std.specs.Prelude.{ℕ, List};
    ghost use Rattle.containers.specs.BoundedList.{entries};

    ghost Value = { List ℕ };

    ghost view = { λ label. entries label.ordinals };
}

impl Label {
    ghost use Rattle.containers.specs.BoundedList.{entries};
    ghost use Rattle.dag_order.specs.LabelOrder.{fork_of, StandsDirectlyBefore};

    /// The label of the root. It takes no memory.
    pub fn root(alloc: Global) -> Label
        ensures { result ≡ [] }
    {
        Label {
            ordinals: BoundedList::new(alloc),
        }
    }

    /// The label with these ordinals, from the root down.
    pub fn from_ordinals(ordinals: BoundedList<u32>) -> Label
        ensures { result ≡ entries ordinals }
    {
        Label { ordinals }
    }

    /// The label of the fork `ordinal` of the thread with this label. It stands directly before this one:
    /// between the two are only labels that stem from later forks of the same thread.
    pub fn fork(&self, ordinal: u32) -> Result<Label, AllocError>
        ensures label { IfOk result (λ child. child ≡ fork_of self.now ordinal) }
        ensures place { IfOk result (λ child. StandsDirectlyBefore child self.now ordinal) }
    {
        let mut ordinals = self.ordinals.copy_with_room()?;
        ordinals.add(ordinal);
        Ok(Label { ordinals })
    }

    /// How many forks stand above one another over the thread.
    pub fn len(&self) -> u32
        ensures { result ≡ length self.now }
    {
        self.ordinals.len()
    }

    /// Whether this is the root's label.
    pub fn is_empty(&self) -> bool
        ensures { IsTrue result ↔ (self.now ≡ []) }
    {
        self.ordinals.is_empty()
    }

    /// The ordinals from the root down to the thread.
    pub fn ordinals(&self) -> &[u32]
        ensures { result.now ≡ self.now }
    {
        self.ordinals.as_slice()
    }
}

ghost use Rattle.dag_order.specs.LabelOrder.{Before};

/// Whether `a` is before `b` in depth-first order: `a` properly extends `b`, or at the first place where
/// both have an ordinal and these differ `a` has the smaller one.
pub fn before(a: &Label, b: &Label) -> bool
    ensures { IsTrue result ↔ Before a.now b.now }
{
    is_before(a.ordinals(), b.ordinals())
}

fn is_before(a: &[u32], b: &[u32]) -> bool
    ensures { IsTrue result ↔ Before a.now b.now }
{
    for i in 0..a.len().min(b.len()) {
        if a[i] != b[i] {
            return a[i] < b[i];
        }
    }
    b.len() < a.len()
}
