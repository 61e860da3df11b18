//! The values of a row, on their way into the slots and out of them.
ghost use Rattle.std.specs.Prelude.{◌≡◌, ℕ, ◌+◌, ◌*◌, ◌<◌, ◌≤◌, ◌^◌, ◌++◌, map, vec_len, vec_capacity, option_to_list, IfOk, OnErr, Some};
ghost use Rattle.core.specs.Mem.Slots.{slots_items, slots_len, IsFull};
ghost use Rattle.turn_table.specs.Values.{present, IsFirstTaken, IsEmpty};

use super::WORDS_APART;
use atomic_table::Closed;
use std::alloc::{AllocError, Allocator, Global};

// A slot for each value. The list of the values keeps its room.
pub(super) fn wrap<V>(alloc: Global, values: &mut Vec<V>) -> Result<Vec<Option<V>>, AllocError>
    ensures ok { IfOk result (λ slots. slots.items ≡ map Some values.old.items) }
    ensures left { IfOk result (λ _. vec_len values.new ≡ 0) }
    ensures room { vec_capacity values.new ≡ vec_capacity values.old }
    ensures err { OnErr result (values.new.items ≡ values.old.items) }
{
    let mut slots = Vec::with_capacity(alloc, values.len())?;
    while let Some(value) = values.pop() {
        slots.push_reserved(Some(value));
    }
    slots.as_mut_slice().reverse();
    Ok(slots)
}

// What a slot holds goes to the end of the values.
fn keep<V>(slot: Option<V>, values: &mut Vec<V>)
    requires { vec_len values.old < vec_capacity values.old }
    ensures items { values.new.items ≡ values.old.items ++ option_to_list slot }
    ensures len { vec_len values.new ≤ vec_len values.old + 1 }
    ensures room { vec_capacity values.new ≡ vec_capacity values.old }
{
    match slot {
        Some(value) => values.push_reserved(value),
        None => {}
    }
}

// The values that the slots hold, in order, into a list that has room for them.
pub(super) fn unwrap<V>(mut slots: Vec<Option<V>>, values: &mut Vec<V>)
    requires { (vec_len values.old ≡ 0) × (vec_len slots ≤ vec_capacity values.old) }
    ensures { values.new.items ≡ present slots.items }
{
    while let Some(slot) = slots.pop() {
        keep(slot, values);
    }
    slots.destroy_empty();
    values.as_mut_slice().reverse();
}

// The first slot whose turn word is not 0.
pub(super) fn first_taken<S, A: Allocator>(closed: &Closed<S, A>) -> Option<u32>
    requires { IsFull closed.now.words × (slots_len closed.now.words ≡ slots_len closed.now.slots * 8 + 8)
        × (slots_len closed.now.slots < 2 ^ 32) }
    ensures { IsFirstTaken (slots_items closed.now.words) (slots_len closed.now.slots) result }
{
    for i in 0..closed.slot_count() {
        if closed.word(i * WORDS_APART) != 0 {
            return Some(i as u32);
        }
    }
    None
}

// The values that the slots hold, in order, into a list that has room for them.
pub(super) fn empty<V, A: Allocator>(closed: &mut Closed<Option<V>, A>, values: &mut Vec<V>)
    requires { IsFull closed.old.slots × (vec_len values.old ≡ 0) × (slots_len closed.old.slots ≤ vec_capacity values.old) }
    ensures values { values.new.items ≡ present (slots_items closed.old.slots) }
    ensures left { IsEmpty closed.new.slots }
{
    for i in 0..closed.slot_count() {
        keep(closed.take(i), values);
    }
}
