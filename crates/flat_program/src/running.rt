//! A list of flat code, run for a thread.

ghost use Rattle.std.specs.Prelude.{◌≡◌, ◌≤◌, length, IfOk, OnErr};
ghost use Rattle.node_table.specs.Table.{Table};
ghost use Rattle.slot_store.specs.Shown.{slots_shown};
ghost use Rattle.flat_code.specs.Passed.Forward.{IsForward};
ghost use Rattle.flat_code.specs.Shown.{flat_shown};
ghost use Rattle.flat_program.specs.Programs.{BeginsAt};
ghost use Rattle.flat_program.specs.Running.{RunsThread};

use crate::flat_list::FlatList;
use flat_run::{Stop, run_flat};
use slot_store::Slots;
use std::alloc::AllocError;

impl FlatList {
    /// Runs from a place on over the slots of the function, with so many turns, up to the place at which it does not go on.
    ///
    /// # Errors
    ///
    /// There is not enough memory. The slots are as they were.
    #[inline(always)]
    pub fn run(&self, slots: &mut Slots, place: usize, turns: u32) -> Result<Stop, AllocError>
        requires forward { IsForward (flat_shown self.now.places.items) }
        requires room { self.now.slots ≤ self.now.size }
        requires long { length (slots_shown slots.old) ≡ self.now.slots }
        ensures thread { IfOk result (λ stop. (t : Table) → BeginsAt t self.now place
            → RunsThread t self.now place (slots_shown slots.old) turns stop (slots_shown slots.new)) }
        ensures err { OnErr result (slots_shown slots.new ≡ slots_shown slots.old) }
    {
        slots.lengthen(self.size)?;
        let stop = run_flat(slots, &self.places, place, turns);
        slots.shorten(self.slots);
        Ok(stop)
    }
}
