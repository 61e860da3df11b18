//! Places, put one after another.

ghost use Rattle.std.specs.Prelude.{◌≡◌, ◌+◌, ◌≤◌, [], ◌∷◌, ◌++◌, length, IfOk, ℕ};
ghost use Rattle.node_table.specs.Table.{Expr};
ghost use Rattle.node_table.specs.Shown.{expr_shown};
ghost use Rattle.flat_expressions.specs.Codes.{code_of, put_code};
ghost use Rattle.flat_expressions.specs.Shown.{acts_shown};
ghost use Rattle.flat_code.specs.Fits.{FitsSet, FitsPut, FitsTest};
ghost use Rattle.flat_code.specs.Made.{placed, acts_placed, tested, test_length, arm_end, arm_end_length, loop_from, left_alone};
ghost use Rattle.flat_code.specs.Refused.{IfTooLong, most_places};
ghost use Rattle.flat_code.specs.Shown.{instruction_shown, frames_shown, places_shown, IsCondition};

use crate::condition::Condition;
use crate::expressions::{lower_condition, lower_expression, lower_operand};
use crate::instruction::Instruction;
use crate::lower_fail::LowerFail;
use crate::place::{Mark, Place, Places};
use crate::scope::Scope;
use flat_expressions::Act;
use node_table::CodeExpr;
use std::alloc::{AllocError, Global};
use thread_stack::Frame;

/// The place that is so many places after another.
pub(crate) fn place_after(place: u32, count: usize) -> Result<u32, LowerFail>
    ensures place { IfOk result (λ n. n ≡ place + count) }
    ensures long { IfTooLong result (most_places ≤ place + count) }
{
    match u32::try_from(count) {
        Ok(count) => place.checked_add(count).ok_or(LowerFail::TooLong),
        Err(_) => Err(LowerFail::TooLong),
    }
}

/// Frames with one more, which is the next one.
pub(crate) fn with_frame(alloc: Global, frames: &[Frame], next: Frame) -> Result<Mark, AllocError>
    ensures { IfOk result (λ v. frames_shown v.items ≡ next ∷ frames_shown frames.now) }
{
    let mut all = frames.to_vec(alloc)?;
    all.push(next)?;
    Ok(all)
}

/// Puts a place after others.
pub(crate) fn add_place(
    alloc: Global,
    places: &mut Places,
    what: Instruction,
    here: &[Frame],
) -> Result<(), AllocError>
    ensures { IfOk result (λ _. places_shown places.new.items
        ≡ places_shown places.old.items ++ placed (instruction_shown what) (frames_shown here.now) ∷ []) }
{
    let mark = here.to_vec(alloc)?;
    places.push(Place { what, mark })?;
    Ok(())
}

/// Puts places after others.
pub(crate) fn add_places(places: &mut Places, more: Places) -> Result<(), AllocError>
    ensures { IfOk result (λ _. places_shown places.new.items ≡ places_shown places.old.items ++ places_shown more.items) }
{
    let mut more = more;
    places.append(&mut more)
}

/// The places of the acts of one statement.
pub(crate) fn acts_places(alloc: Global, acts: &[Act], here: &[Frame]) -> Result<Places, AllocError>
    ensures { IfOk result (λ v. places_shown v.items ≡ acts_placed (frames_shown here.now) (acts_shown acts.now)) }
{
    let mut places = Vec::new(alloc);
    for act in acts {
        add_place(alloc, &mut places, Instruction::Act(*act), here)?;
    }
    Ok(places)
}

/// The places of an assignment.
pub(crate) fn set_places(
    alloc: Global,
    scope: &Scope,
    slot: u16,
    value: &CodeExpr,
    here: &[Frame],
) -> Result<Places, AllocError>
    requires { FitsSet scope.now.slots scope.now.size slot (expr_shown value.now) }
    ensures { IfOk result (λ v. places_shown v.items
        ≡ acts_placed (frames_shown here.now) (code_of (expr_shown value.now) slot scope.now.slots)) }
{
    let _size = scope.size;
    let mut acts = Vec::new(alloc);
    lower_expression(&mut acts, value, slot, scope.slots)?;
    acts_places(alloc, &acts, here)
}

/// The places of a write to a block.
pub(crate) fn put_places(
    alloc: Global,
    scope: &Scope,
    block: u16,
    index: &CodeExpr,
    value: &CodeExpr,
    here: &[Frame],
) -> Result<Places, AllocError>
    requires { FitsPut scope.now.slots scope.now.size block (expr_shown index.now) (expr_shown value.now) }
    ensures { IfOk result (λ v. places_shown v.items
        ≡ acts_placed (frames_shown here.now) (put_code block (expr_shown index.now) (expr_shown value.now) scope.now.slots)) }
{
    let _size = scope.size;
    let mut acts = Vec::new(alloc);
    let index = lower_operand(&mut acts, index, scope.slots)?;
    let from = lower_operand(&mut acts, value, scope.slots + 1)?;
    let mut places = acts_places(alloc, &acts, here)?;
    let write = Instruction::Write { block, index, from };
    add_place(alloc, &mut places, write, here)?;
    Ok(places)
}

/// The acts and the test of a condition.
pub(crate) fn condition_of(
    alloc: Global,
    scope: &Scope,
    cond: &CodeExpr,
) -> Result<Condition, AllocError>
    requires { FitsTest scope.now.slots scope.now.size (expr_shown cond.now) }
    ensures { IfOk result (λ c. IsCondition c (expr_shown cond.now) scope.now.slots) }
{
    let _size = scope.size;
    let mut acts = Vec::new(alloc);
    let test = lower_condition(&mut acts, cond, scope.slots)?;
    Ok(Condition { acts, test })
}

/// The place after a condition and its test.
pub(crate) fn after_test(place: u32, condition: &Condition) -> Result<u32, LowerFail>
    ensures place { IfOk result (λ n. (e : Expr) (k : ℕ) → IsCondition condition.now e k → n ≡ place + test_length e k) }
    ensures long { IfTooLong result ((e : Expr) (k : ℕ) → IsCondition condition.now e k → most_places ≤ place + test_length e k) }
{
    place_after(place, condition.acts.len() + 1)
}

/// The places of a condition and of its test.
pub(crate) fn tested_places(
    alloc: Global,
    condition: &Condition,
    test: Instruction,
    here: &[Frame],
) -> Result<Places, AllocError>
    ensures { IfOk result (λ v. (e : Expr) (k : ℕ) → IsCondition condition.now e k
        → places_shown v.items ≡ tested e k (frames_shown here.now) (instruction_shown test)) }
{
    let mut places = acts_places(alloc, &condition.acts, here)?;
    add_place(alloc, &mut places, test, here)?;
    Ok(places)
}

/// The place of a statement that the thread does by itself.
pub(crate) fn left_places(alloc: Global, here: &[Frame]) -> Result<Places, AllocError>
    ensures { IfOk result (λ v. places_shown v.items ≡ left_alone (frames_shown here.now)) }
{
    let mut places = Vec::new(alloc);
    add_place(alloc, &mut places, Instruction::Leave, here)?;
    Ok(places)
}

/// The place of the other arm of an `if`, whose first arm begins at `start` and has so many places.
pub(crate) fn other_place(start: u32, first: usize, other: &[u32]) -> Result<u32, LowerFail>
    ensures place { IfOk result (λ n. n ≡ start + first + arm_end_length other.now) }
    ensures long { IfTooLong result (most_places ≤ start + first + arm_end_length other.now) }
{
    let end = place_after(start, first)?;
    if other.is_empty() {
        Ok(end)
    } else {
        place_after(end, 1)
    }
}

/// Puts the end of the first arm of an `if` after its places: it jumps over the other arm, if there is one.
pub(crate) fn add_arm_end(
    alloc: Global,
    places: &mut Places,
    other: &[u32],
    end: u32,
    behind: &[Frame],
) -> Result<(), AllocError>
    ensures { IfOk result (λ _. places_shown places.new.items
        ≡ places_shown places.old.items ++ arm_end other.now (frames_shown behind.now) end) }
{
    if other.is_empty() {
        Ok(())
    } else {
        add_place(alloc, places, Instruction::Jump(end), behind)
    }
}

/// The places of a loop, whose body is at the place `body`.
pub(crate) fn loop_places(
    alloc: Global,
    condition: &Condition,
    here: &[Frame],
    again: &[Frame],
    body: u32,
    inside: Places,
) -> Result<Places, LowerFail>
    ensures places { IfOk result (λ v. (e : Expr) (k : ℕ) → IsCondition condition.now e k
        → places_shown v.items ≡ loop_from e k (frames_shown here.now) (frames_shown again.now) body (places_shown inside.items)) }
    ensures long { IfTooLong result ((e : Expr) (k : ℕ) → IsCondition condition.now e k
        → most_places ≤ body + length (places_shown inside.items) + test_length e k) }
{
    let again_at = place_after(body, inside.len())?;
    let behind = after_test(again_at, condition)?;
    let test = condition.test;
    let round = Instruction::Round { test, body, behind };
    let mut places = tested_places(alloc, condition, round, here)?;
    add_places(&mut places, inside)?;
    let second = tested_places(alloc, condition, round, again)?;
    add_places(&mut places, second)?;
    Ok(places)
}
