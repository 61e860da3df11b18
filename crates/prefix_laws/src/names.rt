//! The names of actions: each has the label of its thread, and its index there.

ghost use Rattle.std.specs.Prelude.{◌≡◌, ◌↔◌, ℕ, List as AnyList, Some, IfOk, IsTrue, map, slice_get};
ghost use Rattle.containers.specs.BoundedList.{entries};
ghost use Rattle.dag_order.specs.Births.{HasLabel};
ghost use Rattle.depth_first_run.specs.States.{Item};
ghost use Rattle.depth_first_run.specs.Run.{actions_of};
ghost use Rattle.serial_journal.specs.Telling.{Tells};
ghost use Rattle.prefix_laws.specs.Listing.{births_behind};
ghost use Rattle.prefix_laws.specs.Naming.{name_shown};

use crate::labels::label_of;
use containers::BoundedList;
use dag_order::{ActionId, Births, Label};
use serial_journal::Serial;
use std::alloc::{AllocError, Global};

/// The name of an action: the label of its thread, and its index there.
#[derive(Drop)]
pub(crate) struct Name {
    pub label: Label,
    pub index: u32,
}

/// The name of an action of a thread that has a label by these births.
pub(crate) fn name_of(alloc: Global, births: &[&Births], id: ActionId) -> Result<Name, AllocError>
    requires { ∥ ((label : AnyList ℕ) × HasLabel (births_behind births.now) id.by label) ∥₁ }
    ensures label { IfOk result (λ name. HasLabel (births_behind births.now) id.by name.label) }
    ensures index { IfOk result (λ name. name.index ≡ id.index) }
{
    let label = label_of(alloc, births, id.by)?;
    Ok(Name {
        label,
        index: id.index,
    })
}

/// Whether two names are the same.
fn is_same(a: &Name, b: &Name) -> bool
    ensures { IsTrue result ↔ (a.now ≡ b.now) }
{
    a.index == b.index && a.label.ordinals() == b.label.ordinals()
}

/// The place of a name among others. It looks at each of them.
pub(crate) fn place_of(names: &BoundedList<Name>, name: &Name) -> u32
    requires { ∥ ((place : ℕ) × (slice_get (entries names.now) place ≡ Some name.now)) ∥₁ }
    ensures { slice_get (entries names.now) result ≡ Some name.now }
{
    'places: for place in 0..names.len() {
        if let Some(other) = names.at(place) {
            if is_same(other, name) {
                return place;
            }
        }
    }
    unreachable!()
}

/// The names of the actions of a depth-first run, in their order.
pub(crate) fn names_in(alloc: Global, serial: &Serial) -> Result<BoundedList<Name>, AllocError>
    requires { ∥ ((items : AnyList Item) × Tells items serial.now) ∥₁ }
    ensures { (items : AnyList Item) → Tells items serial.now → IfOk result (λ names. entries names ≡ map name_shown (actions_of items)) }
{
    let births = [&serial.births];
    let mut names = BoundedList::new(alloc);
    'actions: for place in 0..serial.actions.len() {
        let Some(action) = serial.actions.at(place) else {
            unreachable!();
        };
        let name = name_of(alloc, &births, action.name)?;
        names.reserve()?;
        names.add(name);
    }
    Ok(names)
}
