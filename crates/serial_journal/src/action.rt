use containers::BoundedList;
use dag_order::{ActionId, Kind};

/// An action of a run: its name, what it does, and by how many words the live words rise.
///
/// An `Alloc` adds the words of its block, a `Release` takes them away. A `Fault` takes away all that its thread
/// holds, and a `Join` what is released where one of the two threads faulted. All others weigh nothing.
#[derive(Clone, Copy, PartialEq, Eq, Debug)]
pub struct Action {
    pub name: ActionId,
    pub kind: Kind,
    pub change: i64,
}

/// Actions, in depth-first order.
pub type Actions = BoundedList<Action>;
