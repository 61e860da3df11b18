//! The memory that a seat has for its next event.

ghost use Rattle.std.specs.Prelude.{◌≡◌, ◌≤◌, [], OnOk, IsSome};
ghost use Rattle.containers.specs.BoundedList.{entries, spare};

use containers::Boxed;
use dag_order::Births;
use std::alloc::{AllocError, Global};
use thread_actions::reserve_place;
use thread_frames::{Place, Thread};

/// The memory that a seat keeps for its next event.
#[derive(Drop)]
pub struct SeatMemory {
    /// A list without births, for a period that has none yet.
    pub births: Births,
    /// A place for the child that is forked next, if there is one.
    pub place: Option<Place>,
    /// A thread that has ended, whose place can be used again.
    pub used: Option<Boxed<Thread>>,
}

impl SeatMemory {
    /// The memory of a seat that has done nothing. It takes none.
    pub fn new(alloc: Global) -> SeatMemory
        ensures { entries result.births ≡ [] }
    {
        SeatMemory {
            births: Births::new(alloc),
            place: None,
            used: None,
        }
    }

    /// Makes room for a birth and for a child.
    ///
    /// # Errors
    ///
    /// There is not enough memory.
    pub fn reserve(&mut self, alloc: Global) -> Result<(), AllocError>
        ensures births { entries self.new.births ≡ entries self.old.births }
        ensures room { OnOk result (1 ≤ spare self.new.births) }
        ensures place { OnOk result (IsSome self.new.place) }
    {
        self.births.reserve()?;
        reserve_place(&mut self.place, &mut self.used, alloc)
    }
}
