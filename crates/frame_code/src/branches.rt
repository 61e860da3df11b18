//! What goes in and out of the first branch of a `par`, as slots.

ghost use Rattle.std.specs.Prelude.{◌≡◌, IfOk};
ghost use Rattle.std.specs.List.{filter};
ghost use Rattle.par_names.specs.Named.{body_of};
ghost use Rattle.par_names.specs.Rows.{rows_tree};
ghost use Rattle.par_names.specs.Sets.{names_behind};
ghost use Rattle.node_table.specs.Programs.{is_named_in, is_assigned_in};
ghost use Rattle.node_table.specs.Reading.{AreSlots};
ghost use Rattle.frame_code.specs.Scopes.{names_tree};
ghost use Rattle.frame_code.specs.Branches.{SlotsOfBranches};

use crate::slot_names::SlotNames;
use node_table::Slots;
use par_names::NamedBody;
use par_tree::{Body, Name};
use std::alloc::{AllocError, Global};

/// What goes in and out of the first branch of a `par`.
#[derive(Drop)]
pub(crate) struct Branches {
    pub(crate) blocks: Slots,
    pub(crate) assigned: Slots,
}

/// The bytes of names.
fn bytes_of<'a>(alloc: Global, names: &'a [Name]) -> Result<Vec<&'a [u8]>, AllocError>
    ensures { IfOk result (λ v. names_behind v.items ≡ names_tree names.now) }
{
    let mut found = Vec::new(alloc);
    for name in names {
        found.push(name.bytes.as_slice())?;
    }
    Ok(found)
}

/// The slots whose names the statements write.
fn named_slots(alloc: Global, names: &SlotNames, body: &NamedBody) -> Result<Slots, AllocError>
    ensures { IfOk result (λ v. AreSlots (names_tree names.now.names.items) v.items
        (filter (is_named_in (body_of body.now)) (names_tree names.now.names.items))) }
{
    let mut found = Vec::new(alloc);
    for i in 0..names.names.len() {
        if body.names(&names.names[i].bytes) {
            found.push(i as u16)?;
        }
    }
    Ok(found)
}

/// The slots to whose integers the statements assign.
fn assigned_slots(alloc: Global, names: &SlotNames, body: &NamedBody) -> Result<Slots, AllocError>
    ensures { IfOk result (λ v. AreSlots (names_tree names.now.names.items) v.items
        (filter (is_assigned_in (body_of body.now)) (names_tree names.now.names.items))) }
{
    let mut found = Vec::new(alloc);
    for i in 0..names.names.len() {
        if body.assigns(&names.names[i].bytes) {
            found.push(i as u16)?;
        }
    }
    Ok(found)
}

/// What goes in and out of the first branch of a `par`, as slots.
pub(crate) fn branch_slots(
    alloc: Global,
    names: &SlotNames,
    left: &Body,
) -> Result<Branches, AllocError>
    ensures { IfOk result (SlotsOfBranches (names_tree names.now.names.items) (rows_tree left.now)) }
{
    let asked = bytes_of(alloc, &names.names)?;
    let body = NamedBody::of(alloc, left, &asked)?;
    let blocks = named_slots(alloc, names, &body)?;
    let assigned = assigned_slots(alloc, names, &body)?;
    Ok(Branches { blocks, assigned })
}
