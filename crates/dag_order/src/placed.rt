ghost use Rattle.std.specs.Prelude.{◌≡◌, ◌≢◌, ◌⊎◌, ◌↔◌, ℕ, List, IsTrue, AllPairs};
ghost use Rattle.dag_order.specs.LabelOrder.{Before};
ghost use Rattle.dag_order.specs.LabelLaws as laws;

use crate::label::{Label, before};

/// What has a place in the depth-first order of a program's threads.
///
/// Its laws are those of a strict order: nothing is before itself, what is before something is before all
/// that this is before, and of two things with different labels one is before the other.
pub trait Placed {
    ghost label_of: { Self → List ℕ };

    fn label(&self) -> &Label
        ensures { result.now ≡ label_of self.now };

    ghost never_before_itself: { (x : Self) → ¬ Before (label_of x) (label_of x) } = { λ x. laws.never_before_itself (label_of x) };

    ghost before_further: { (x y z : Self) → Before (label_of x) (label_of y) → Before (label_of y) (label_of z)
        → Before (label_of x) (label_of z) } = { λ x y z. laws.before_further (label_of x) (label_of y) (label_of z) };

    ghost one_is_before: { (x y : Self) → label_of x ≢ label_of y
        → Before (label_of x) (label_of y) ⊎ Before (label_of y) (label_of x) } = { λ x y. laws.one_is_before (label_of x) (label_of y) };
}

impl Placed for Label {
    ghost label_of = { λ label. label };

    fn label(&self) -> &Label {
        self
    }
}

/// Whether each of the items is before all later ones. It compares neighbours alone, since the order is
/// transitive.
pub fn is_in_order<T: Placed>(items: &[T]) -> bool
    ensures { IsTrue result ↔ AllPairs (λ x y. Before (T.label_of x) (T.label_of y)) items.now }
{
    for i in 1..items.len() {
        if !before(items[i - 1].label(), items[i].label()) {
            return false;
        }
    }
    true
}
