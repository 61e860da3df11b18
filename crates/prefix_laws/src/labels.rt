//! The labels of threads by births.

ghost use Rattle.std.specs.Prelude.{◌≡◌, ℕ, List as AnyList, IfOk};
ghost use Rattle.containers.specs.BoundedList.{entries};
ghost use Rattle.dag_order.specs.Births.{HasLabel, Leads, birth_of, root};
ghost use Rattle.prefix_laws.specs.Listing.{births_behind};

use containers::BoundedList;
use dag_order::{Birth, Births, Label, ThreadId};
use std::alloc::{AllocError, Global};

/// The birth of a thread, where period by period these were born; None exactly where it has none.
fn birth_of(births: &[&Births], id: ThreadId) -> Option<Birth>
    ensures { result ≡ birth_of (births_behind births.now) id }
{
    let before = id.period.checked_sub(1)?;
    let Some(period) = births.get(before as usize) else {
        return None;
    };
    period.at(id.nth).copied()
}

/// The ordinals of the births on the way from a thread up to the root, that of the thread first.
fn ordinals_up(
    alloc: Global,
    births: &[&Births],
    id: ThreadId,
) -> Result<BoundedList<u32>, AllocError>
    requires { ∥ ((label : AnyList ℕ) × HasLabel (births_behind births.now) id label) ∥₁ }
    ensures { IfOk result (λ way. Leads (births_behind births.now) id (entries way) root) }
{
    let mut ordinals = BoundedList::new(alloc);
    let mut at = id;
    'way: while at != ThreadId::ROOT {
        let Some(birth) = birth_of(births, at) else {
            unreachable!();
        };
        ordinals.reserve()?;
        ordinals.add(birth.ordinal);
        at = birth.parent;
    }
    Ok(ordinals)
}

/// The label of a thread, by the births on the way from it up to the root.
pub(crate) fn label_of(alloc: Global, births: &[&Births], id: ThreadId) -> Result<Label, AllocError>
    requires { ∥ ((label : AnyList ℕ) × HasLabel (births_behind births.now) id label) ∥₁ }
    ensures { IfOk result (λ label. HasLabel (births_behind births.now) id label) }
{
    let mut ordinals = ordinals_up(alloc, births, id)?.into_vec();
    ordinals.reverse();
    Ok(Label::from_ordinals(BoundedList::from_vec(ordinals)))
}
