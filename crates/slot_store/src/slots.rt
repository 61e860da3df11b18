ghost use Rattle.std.specs.Prelude.{◌≤◌, vec_len};

use crate::slot::Slot;

/// The slots that a function's run has, by their numbers from 0.
///
/// An integer is 0 until it is set, and a slot has no block until one is held there.
#[derive(Drop)]
pub struct Slots {
    pub(crate) slots: Vec<Slot>,
    ghost few: { vec_len slots ≤ 65535 },
}
