//! The row of turns.
ghost use Rattle.std.specs.Prelude.{◌≡◌, ℕ, ◌+◌, ◌*◌, ◌<◌, ◌≤◌, ◌^◌, length, vec_len, vec_capacity};

use crate::law::TurnLaw;
use crate::opening::Opening;
use crate::place::Place;
use crate::ruled::Ruled;
use atomic_table::Table;
use std::alloc::Global;

/// How many words apart the turn words are. A line of the processor's cache has eight, so a seat that takes its own slot takes no line from the
/// holder of another.
const WORDS_APART: usize = 8;

mod close;
mod new;
mod steps;
mod values;

/// A row of slots, each with a turn word, and a word that counts, under one law.
///
/// A turn is a lock of one word, taken by test and set. The law is an invariant of the whole row, which each step of each seat
/// keeps while it knows no more than its own hand, after the manner of Owicki and Gries. What a seat has found and what it notes
/// stands in its hand, in contracts alone.
///
/// It is shared by threads where V is `Send` and `Sync`.
#[derive(Drop)]
pub struct Turns<V, L: TurnLaw<V>> {
    table: Table<Option<V>, Place<L::Key, V, L::Note>, Opening<L::Key, V>, Ruled<L>, Global>,
    // Room for the values when the row is closed.
    spare: Vec<V>,
    ghost sized: { (table.shared.table_id.words ≡ table.shared.table_id.slots * 8 + 8) × (0 < table.shared.table_id.slots)
        × (table.shared.table_id.slots < 2 ^ 32) },
    ghost told: { length table.shared.key.values.value.items ≡ table.shared.table_id.slots },
    ghost roomy: { (vec_len spare ≡ 0) × (table.shared.table_id.slots ≤ vec_capacity spare) },
}
