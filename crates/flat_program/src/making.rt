//! Makes the flat code of a program.

ghost use Rattle.std.specs.Prelude.{◌≡◌, ℕ, ◌+◌, ◌^◌, ◌<◌, length, None, IfOk, IfSome};
ghost use Rattle.node_table.specs.Codes.{code_shown};
ghost use Rattle.flat_code.specs.Fits.{CanBeFlat};
ghost use Rattle.flat_code.specs.Passed.Codes.{IsWholeCode};
ghost use Rattle.flat_code.specs.Made.{code_length};
ghost use Rattle.flat_code.specs.Refused.{IfTooLong, most_places};
ghost use Rattle.flat_code.specs.Shown.{flat_shown};
ghost use Rattle.flat_program.specs.Programs.{IsFlatList, IsFlatProgram};
ghost use Rattle.flat_program.specs.Entries.{KeepsStarts, BeginsWith, HasStart};
ghost use Rattle.flat_program.specs.Lists.{HasCodeIfCan, HasBodies, HasStartIfCan, HasBodyStarts, IsSized, Grows, IsPutAfter, most_functions, most_lists};

use crate::flat_list::FlatList;
use crate::flat_program::FlatProgram;
use crate::marking::deepest_of;
use crate::owners::owners;
use crate::starting::note_all;
use flat_code::{LowerFail, can_be_flat, lower_whole};
use node_table::{NodeKind, NodeTable};
use std::alloc::{AllocError, Global};
use thread_stack::ListOf;

/// For how many intermediate numbers a row may have slots.
const MOST_NUMBERS: u16 = 256;

impl FlatProgram {
    /// The flat code of all lists of a program that a thread does not leave by itself. A list of too many places has none.
    ///
    /// The body of each function that can have code has it, up to a number of functions and of lists that 32 bits can count.
    ///
    /// # Errors
    ///
    /// There is not enough memory.
    pub fn of(alloc: Global, table: &NodeTable) -> Result<FlatProgram, AllocError>
        ensures program { IfOk result (IsFlatProgram (code_shown table.now)) }
        ensures bodies { IfOk result (λ p. HasBodies (code_shown table.now) p.lists.items most_functions) }
        ensures sized { IfOk result (λ p. IsSized (code_shown table.now) p) }
        ensures begins { IfOk result (λ p. HasBodyStarts (code_shown table.now) p most_functions) }
    {
        let mut program = FlatProgram::without_lists(alloc, table)?;
        program.add_bodies(alloc, table)?;
        program.add_branches(alloc, table)?;
        Ok(program)
    }

    /// No list, and no start of any node.
    fn without_lists(alloc: Global, table: &NodeTable) -> Result<FlatProgram, AllocError>
        ensures program { IfOk result (IsFlatProgram (code_shown table.now)) }
        ensures sized { IfOk result (λ p. IsSized (code_shown table.now) p) }
    {
        let mut starts = Vec::new(alloc);
        for _number in 0..table.len() {
            starts.push(None)?;
            starts.push(None)?;
        }
        Ok(FlatProgram {
            lists: Vec::new(alloc),
            starts,
        })
    }

    /// Adds the bodies of functions.
    fn add_bodies(&mut self, alloc: Global, table: &NodeTable) -> Result<(), AllocError>
        requires { IsFlatProgram (code_shown table.now) self.old }
        ensures program { IfOk result (λ _. IsFlatProgram (code_shown table.now) self.new) }
        ensures bodies { IfOk result (λ _. HasBodies (code_shown table.now) self.new.lists.items most_functions) }
        ensures keeps { IfOk result (λ _. KeepsStarts self.old.starts.items self.new.starts.items) }
        ensures begins { IfOk result (λ _. HasBodyStarts (code_shown table.now) self.new most_functions) }
    {
        for func in 0..u32::MAX {
            let Some(function) = table.func(func) else {
                return Ok(());
            };
            self.add(alloc, table, ListOf::Body(func), function.slots)?;
        }
        Ok(())
    }

    /// Adds the branches of `par` and the bodies of `split`.
    fn add_branches(&mut self, alloc: Global, table: &NodeTable) -> Result<(), AllocError>
        requires { IsFlatProgram (code_shown table.now) self.old }
        ensures program { IfOk result (λ _. IsFlatProgram (code_shown table.now) self.new) }
        ensures grows { IfOk result (λ _. Grows self.old.lists.items self.new.lists.items) }
        ensures keeps { IfOk result (λ _. KeepsStarts self.old.starts.items self.new.starts.items) }
    {
        let owners = owners(alloc, table)?;
        let mut number = 0u32;
        for slots in &owners {
            self.add_inside(alloc, table, number, *slots)?;
            number = number.saturating_add(1);
        }
        Ok(())
    }

    /// Adds what a thread runs of a node as a list of its own.
    fn add_inside(
        &mut self,
        alloc: Global,
        table: &NodeTable,
        number: u32,
        slots: u16,
    ) -> Result<(), AllocError>
        requires { IsFlatProgram (code_shown table.now) self.old }
        ensures program { IfOk result (λ _. IsFlatProgram (code_shown table.now) self.new) }
        ensures grows { IfOk result (λ _. Grows self.old.lists.items self.new.lists.items) }
        ensures keeps { IfOk result (λ _. KeepsStarts self.old.starts.items self.new.starts.items) }
    {
        let Some(node) = table.node(number) else {
            return Ok(());
        };
        match &node.kind {
            NodeKind::Both { .. } => {
                self.add(alloc, table, ListOf::Left(number), slots)?;
                self.add(alloc, table, ListOf::Right(number), slots)
            }
            NodeKind::Split { .. } => self.add(alloc, table, ListOf::Inside(number), slots),
            _ => Ok(()),
        }
    }

    /// Adds a list of a function with so many slots.
    fn add(
        &mut self,
        alloc: Global,
        table: &NodeTable,
        list: ListOf,
        slots: u16,
    ) -> Result<(), AllocError>
        requires { IsFlatProgram (code_shown table.now) self.old }
        ensures program { IfOk result (λ _. IsFlatProgram (code_shown table.now) self.new) }
        ensures grows { IfOk result (λ _. Grows self.old.lists.items self.new.lists.items) }
        ensures has { IfOk result (λ _. HasCodeIfCan (code_shown table.now) self.new.lists.items slots list) }
        ensures keeps { IfOk result (λ _. KeepsStarts self.old.starts.items self.new.starts.items) }
        ensures begins { IfOk result (λ _. HasStartIfCan (code_shown table.now) self.new slots list) }
    {
        let Some(size) = size_for(table, list, slots) else {
            return Ok(());
        };
        match flat_list(alloc, table, list, slots, size) {
            Ok(flat) => self.put(table, flat),
            Err(LowerFail::OutOfMemory) => Err(AllocError),
            Err(LowerFail::TooLong) => Ok(()),
        }
    }

    /// Puts a list after the others, and notes where its frames begin.
    fn put(&mut self, table: &NodeTable, flat: FlatList) -> Result<(), AllocError>
        requires program { IsFlatProgram (code_shown table.now) self.old }
        requires list { IsFlatList (code_shown table.now) flat }
        ensures program { IfOk result (λ _. IsFlatProgram (code_shown table.now) self.new) }
        ensures lists { IfOk result (λ _. IsPutAfter self.old.lists.items flat self.new.lists.items) }
        ensures keeps { IfOk result (λ _. KeepsStarts self.old.starts.items self.new.starts.items) }
        ensures noted { IfOk result (λ _. (entry : ℕ) → length self.new.lists.items < most_lists → BeginsWith (code_shown table.now) flat entry
            → entry < length self.old.starts.items → HasStart self.new.starts.items entry) }
    {
        let Ok(number) = u32::try_from(self.lists.len()) else {
            return Ok(());
        };
        self.lists.reserve(1)?;
        note_all(&mut self.starts, table, &flat, number);
        self.lists.push_reserved(flat);
        Ok(())
    }
}

/// The length of a row that has room for the intermediate numbers of a list. None exactly if no row has room that has fewer than
/// `MOST_NUMBERS` slots more than the function.
fn size_for(table: &NodeTable, list: ListOf, slots: u16) -> Option<u16>
    ensures fits { IfSome result (λ size. CanBeFlat (code_shown table.now) slots size list) }
    ensures none { result ≡ None → (size : ℕ) → size < slots + MOST_NUMBERS → size < 2 ^ 16
        → CanBeFlat (code_shown table.now) slots size list → ⊥ }
{
    for more in 0..MOST_NUMBERS {
        let size = slots.saturating_add(more);
        if can_be_flat(table, list, slots, size) {
            return Some(size);
        }
    }
    None
}

/// The flat code of a list.
///
/// # Errors
///
/// There is not enough memory, or there are too many places.
fn flat_list(
    alloc: Global,
    table: &NodeTable,
    list: ListOf,
    slots: u16,
    size: u16,
) -> Result<FlatList, LowerFail>
    requires { CanBeFlat (code_shown table.now) slots size list }
    ensures flat { IfOk result (IsFlatList (code_shown table.now)) }
    ensures code { IfOk result (λ l. (l.slots ≡ slots) × IsWholeCode (code_shown table.now) (flat_shown l.places.items) slots l.size list 0) }
    ensures long { IfTooLong result (most_places < code_length (code_shown table.now) slots list) }
{
    let places = lower_whole(alloc, table, list, slots, size)?;
    let deepest = deepest_of(&places);
    Ok(FlatList {
        places,
        slots,
        size,
        deepest,
    })
}
