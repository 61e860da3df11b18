//! One instruction of flat code.

ghost use Rattle.std.specs.Prelude.{◌≡◌, ◌+◌, ◌<◌, ◌^◌, Some, Ok};
ghost use Rattle.par_tree.specs.View.{cmp_op_tree};
ghost use Rattle.slot_store.specs.Passed.Values.{compared};
ghost use Rattle.slot_store.specs.Shown.{slots_shown};
ghost use Rattle.flat_expressions.specs.Acts.{operand_in, passes};
ghost use Rattle.flat_expressions.specs.Shown.{operand_shown};
ghost use Rattle.flat_code.specs.Passed.Flat.{step_at};
ghost use Rattle.flat_code.specs.Shown.{test_shown, instruction_shown};
ghost use Rattle.flat_run.specs.Ran.{at_point, came_by, StaysBy};

use crate::end::End;
use crate::next::Next;
use dag_order::FaultKind;
use flat_code::{Instruction, Test};
use flat_expressions::{Operand, do_act, read, write};
use number_operators::{compare, is_true};
use par_tree::CmpOp;
use slot_store::Slots;

/// Does the instruction of a place.
#[inline(always)]
pub(crate) fn do_one(slots: &mut Slots, what: &Instruction, place: usize, turns: u32) -> Next
    requires { place + 1 < 2 ^ 64 }
    ensures step { step_at (at_point place (slots_shown slots.old) turns) (Some (instruction_shown what.now))
        ≡ came_by result (slots_shown slots.new) }
    ensures stays { StaysBy result (slots_shown slots.old) (slots_shown slots.new) }
{
    match what {
        Instruction::Act(act) => match do_act(slots, act) {
            Ok(()) => Next::Goes {
                place: place + 1,
                turns,
            },
            Err(kind) => Next::Ends(End::Faults(kind)),
        },
        Instruction::Write { block, index, from } => match write(slots, *block, *index, *from) {
            Ok(()) => Next::Goes {
                place: place + 1,
                turns,
            },
            Err(kind) => Next::Ends(End::Faults(kind)),
        },
        Instruction::Unless { test, other } => {
            let place = if passes(slots, test) {
                place + 1
            } else {
                *other as usize
            };
            Next::Goes { place, turns }
        }
        Instruction::Round { test, body, behind } => {
            if !passes(slots, test) {
                return Next::Goes {
                    place: *behind as usize,
                    turns,
                };
            }
            if turns == 0 {
                return Next::Ends(End::Faults(FaultKind::Turns));
            }
            Next::Goes {
                place: *body as usize,
                turns: turns - 1,
            }
        }
        Instruction::Jump(next) => Next::Goes {
            place: *next as usize,
            turns,
        },
        Instruction::Leave => Next::Ends(End::Leaves),
    }
}

/// Whether the test of a condition passes.
#[inline(always)]
fn passes(slots: &Slots, test: &Test) -> bool
    ensures { result ≡ passes (slots_shown slots.now) (test_shown test.now) }
{
    match test {
        Test::IsSet(operand) => is_true(read(slots, *operand)),
        Test::Compare { op, left, right } => is_true(compared(slots, *op, *left, *right)),
    }
}

/// The number of a comparison of two operands.
#[inline(always)]
fn compared(slots: &Slots, op: CmpOp, left: Operand, right: Operand) -> i64
    ensures { compared (cmp_op_tree op) (operand_in (slots_shown slots.now) (operand_shown left))
        (operand_in (slots_shown slots.now) (operand_shown right)) ≡ Ok result }
{
    compare(op, read(slots, left), read(slots, right))
}
