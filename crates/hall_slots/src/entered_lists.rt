//! What is written in the list.

ghost use Rattle.std.specs.Prelude.{◌≡◌, ◌∷◌, ◌++◌, [], ℕ, IfOk, OnErr};
ghost use Rattle.hall_machine.specs.Numbers.{IsSmallestNumber};

use crate::ListSlot;
use containers::Boxed;
use std::alloc::AllocError;

/// Lets a worker in, under the smallest number that is free.
///
/// # Errors
///
/// There is not enough memory.
pub(crate) fn enter_in(list: &mut Boxed<ListSlot>, workers: u32) -> Result<u32, AllocError>
    requires { (worker : ℕ) × IsSmallestNumber workers list.old.crew.items worker }
    ensures number { IfOk result (λ worker. IsSmallestNumber workers list.old.crew.items worker) }
    ensures crew { IfOk result (λ worker. list.new.crew.items ≡ list.old.crew.items ++ worker ∷ []) }
    ensures err { OnErr result (list.new.crew.items ≡ list.old.crew.items) }
    ensures part { list.new.part ≡ list.old.part }
    ensures end { list.new.end ≡ list.old.end }
{
    list.get_mut().enter(workers)
}
