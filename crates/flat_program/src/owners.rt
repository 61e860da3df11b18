//! How many slots the function has in which a node is.

use node_table::{NodeKind, NodeTable};
use std::alloc::{AllocError, Global};
use thread_stack::{ListOf, numbers};

/// The slots of its function for each node.
///
/// # Errors
///
/// There is not enough memory.
pub(crate) fn owners(alloc: Global, table: &NodeTable) -> Result<Vec<u16>, AllocError> {
    let mut slots = Vec::new(alloc);
    for _ in 0..table.len() {
        slots.push(0u16)?;
    }
    for func in 0..u32::MAX {
        let Some(function) = table.func(func) else {
            break;
        };
        set_all(
            &mut slots,
            numbers(table, ListOf::Body(func)),
            function.slots,
        );
    }
    for number in 0..table.len() {
        pass_on(&mut slots, table, number);
    }
    Ok(slots)
}

/// The nodes inside a node are in the same function; they have greater numbers.
fn pass_on(slots: &mut Vec<u16>, table: &NodeTable, number: u32) {
    let Some(node) = table.node(number) else {
        return;
    };
    let Some(own) = slots.get(number as usize).copied() else {
        return;
    };
    match &node.kind {
        NodeKind::If { then, other, .. } => {
            set_all(slots, then, own);
            set_all(slots, other, own);
        }
        NodeKind::While { body, .. } => set_all(slots, body, own),
        NodeKind::Both { left, right, .. } => {
            set_all(slots, left, own);
            set_all(slots, right, own);
        }
        NodeKind::Split { body, .. } => set_all(slots, body, own),
        _ => {}
    }
}

/// These nodes are in a function with so many slots.
fn set_all(slots: &mut Vec<u16>, numbers: &[u32], own: u16) {
    for number in numbers {
        if (*number as usize) < slots.len() {
            slots[*number as usize] = own;
        }
    }
}
