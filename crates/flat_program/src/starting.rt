//! Where frames begin in flat code.

ghost use Rattle.std.specs.Prelude.{◌≡◌, ℕ, ◌<◌, List, length, Some, IsTrue, All, slice_get};
ghost use Rattle.node_table.specs.Codes.{code_shown};
ghost use Rattle.flat_code.specs.Shown.{flat_shown};
ghost use Rattle.flat_code.specs.Starts.{IsWithinStatement};
ghost use Rattle.flat_program.specs.Programs.{IsFlatList, StartsIn};
ghost use Rattle.flat_program.specs.Entries.{entry_of_frame, HasStart, KeepsStarts, BeginsWith};
ghost use Rattle.flat_program.specs.declared.flat_list.FlatList as lists;

use crate::flat_list::FlatList;
use crate::flat_start::FlatStart;
use crate::marking::are_same_frames;
use flat_code::{Instruction, Place};
use node_table::NodeTable;
use thread_stack::{Frame, numbers};

/// The number of a frame's entry in the table of starts.
#[inline(always)]
pub(crate) fn entry_of(table: &NodeTable, frame: Frame) -> Option<usize>
    ensures { result ≡ entry_of_frame (code_shown table.now) frame }
{
    match frame {
        Frame::Statements { list, next } => {
            let number = numbers(table, list).get(next)?;
            Some(*number as usize * 2)
        }
        Frame::Again(number) => Some(number as usize * 2 + 1),
        _ => None,
    }
}

/// Notes where a frame begins.
fn note(starts: &mut Vec<Option<FlatStart>>, table: &NodeTable, frame: Frame, start: FlatStart)
    ensures starts { (ls : List lists.FlatList) → StartsIn (code_shown table.now) ls (Some start)
        → All (StartsIn (code_shown table.now) ls) starts.old.items → All (StartsIn (code_shown table.now) ls) starts.new.items }
    ensures keeps { KeepsStarts starts.old.items starts.new.items }
    ensures has { (entry : ℕ) → entry_of_frame (code_shown table.now) frame ≡ Some entry → entry < length starts.old.items
        → HasStart starts.new.items entry }
{
    let Some(entry) = entry_of(table, frame) else {
        return;
    };
    if entry < starts.len() {
        starts[entry] = Some(start);
    }
}

/// Whether a place has another mark than the place before it.
fn is_first(places: &[Place], at: usize) -> bool
    ensures first { IsTrue result → IsWithinStatement (flat_shown places.now) at → ⊥ }
    ensures at_start { at ≡ 0 → IsTrue result }
{
    if at == 0 {
        return true;
    }
    let Some(before) = places.get(at - 1) else {
        return false;
    };
    let Some(here) = places.get(at) else {
        return false;
    };
    !are_same_frames(&before.mark, &here.mark)
}

/// Notes where the frame of a place begins, if it begins there. A jump is left out, since it leads to where the same frames begin.
fn note_at(
    starts: &mut Vec<Option<FlatStart>>,
    table: &NodeTable,
    flat: &FlatList,
    list: u32,
    place: usize,
)
    requires { IsFlatList (code_shown table.now) flat.now }
    ensures starts { (ls : List lists.FlatList) → slice_get ls list ≡ Some flat.now
        → All (StartsIn (code_shown table.now) ls) starts.old.items → All (StartsIn (code_shown table.now) ls) starts.new.items }
    ensures keeps { KeepsStarts starts.old.items starts.new.items }
    ensures has { place ≡ 0 → (entry : ℕ) → BeginsWith (code_shown table.now) flat.now entry → entry < length starts.old.items
        → HasStart starts.new.items entry }
{
    let Some(here) = flat.places.get(place) else {
        return;
    };
    if matches!(here.what, Instruction::Jump(_)) {
        return;
    }
    if !is_first(&flat.places, place) {
        return;
    }
    if let Some(frame) = here.mark.last() {
        note(starts, table, *frame, FlatStart { list, place });
    }
}

/// Notes where the frames of a list begin.
pub(crate) fn note_all(
    starts: &mut Vec<Option<FlatStart>>,
    table: &NodeTable,
    flat: &FlatList,
    list: u32,
)
    requires { IsFlatList (code_shown table.now) flat.now }
    ensures starts { (ls : List lists.FlatList) → slice_get ls list ≡ Some flat.now
        → All (StartsIn (code_shown table.now) ls) starts.old.items → All (StartsIn (code_shown table.now) ls) starts.new.items }
    ensures keeps { KeepsStarts starts.old.items starts.new.items }
    ensures has { (entry : ℕ) → BeginsWith (code_shown table.now) flat.now entry → entry < length starts.old.items
        → HasStart starts.new.items entry }
{
    for place in 0..flat.places.len() {
        note_at(starts, table, flat, list, place);
    }
}
