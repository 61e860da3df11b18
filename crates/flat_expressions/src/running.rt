//! Straight code on slots.

ghost use Rattle.std.specs.Prelude.{◌≡◌};
ghost use Rattle.slot_store.specs.Rows.{with_integer_at};
ghost use Rattle.slot_store.specs.Shown.{slots_shown};
ghost use Rattle.flat_expressions.specs.Acts.{operand_in, write_at, act_on, straight};
ghost use Rattle.flat_expressions.specs.Shown.{operand_shown, act_shown, acts_shown, number_by, IsDone, IsRun};

use crate::act::Act;
use crate::operand::Operand;
use dag_order::FaultKind;
use number_operators::{compare, negate, operate};
use slot_store::Slots;

/// Runs acts one after another.
///
/// # Errors
///
/// The first fault. The slots are as they were before the act that met it.
pub fn run(slots: &mut Slots, acts: &[Act]) -> Result<(), FaultKind>
    ensures { IsRun (straight (acts_shown acts.now) (slots_shown slots.old)) result (slots_shown slots.new) }
{
    for act in acts {
        match do_act(slots, act) {
            Ok(()) => {}
            Err(kind) => {
                return Err(kind);
            }
        }
    }
    Ok(())
}

/// Does one act, which leaves its number in a slot. A slot that there is not is left out.
///
/// # Errors
///
/// The fault of the act. The slots are as they were.
#[inline(always)]
pub fn do_act(slots: &mut Slots, act: &Act) -> Result<(), FaultKind>
    ensures { IsDone (act_on (act_shown act.now) (slots_shown slots.old)) (slots_shown slots.old) result (slots_shown slots.new) }
{
    match number_of(slots, act) {
        Ok(number) => {
            leave(slots, act.target(), number);
            Ok(())
        }
        Err(kind) => Err(kind),
    }
}

/// Writes a number to a block, by its index.
///
/// # Errors
///
/// `Index`, exactly where the block does not have the place. The slots are as they were.
#[inline(always)]
pub fn write(slots: &mut Slots, block: u16, index: Operand, from: Operand) -> Result<(), FaultKind>
    ensures { IsDone (act_on (write_at block (operand_shown index) (operand_shown from)) (slots_shown slots.old)) (slots_shown slots.old) result
        (slots_shown slots.new) }
{
    if usize::from(block) < slots.count() {
        let index = read(slots, index);
        let number = read(slots, from);
        slots.put(block, index, number)
    } else {
        Err(FaultKind::Index)
    }
}

/// Leaves a number in a slot, if there is such a slot.
#[inline(always)]
fn leave(slots: &mut Slots, to: u16, number: i64)
    ensures { slots_shown slots.new ≡ with_integer_at (slots_shown slots.old) to number }
{
    if usize::from(to) < slots.count() {
        slots.set_integer(to, number);
    }
}

/// The number that an act leaves, or its fault.
#[inline(always)]
fn number_of(slots: &Slots, act: &Act) -> Result<i64, FaultKind>
    ensures { result ≡ number_by (slots_shown slots.now) act.now }
{
    match act {
        Act::Move { from, .. } => Ok(read(slots, *from)),
        Act::Length { block, .. } => Ok(i64::from(slots.length(*block))),
        Act::Element { block, index, .. } => slots.element(*block, read(slots, *index)),
        Act::Negate { from, .. } => Ok(negate(read(slots, *from))),
        Act::Operate {
            op,
            left,
            right,
            ..
        } => operate(*op, read(slots, *left), read(slots, *right)),
        Act::Compare {
            op,
            left,
            right,
            ..
        } => Ok(compare(*op, read(slots, *left), read(slots, *right))),
    }
}

/// The number of an operand.
#[inline(always)]
pub fn read(slots: &Slots, operand: Operand) -> i64
    ensures { result ≡ operand_in (slots_shown slots.now) (operand_shown operand) }
{
    match operand {
        Operand::Slot(slot) => slots.integer(slot),
        Operand::Number(number) => number,
    }
}
