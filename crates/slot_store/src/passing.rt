//! What a call passes to the row of a function.

ghost use Rattle.std.specs.Prelude.{◌≡◌, ◌<◌, ℕ, ℤ, List, length, Result, Ok, OnErr, ◌∷◌};
ghost use Rattle.depth_first_run.specs.Passed.Tree.{Name, Param, Arg};
ghost use Rattle.depth_first_run.specs.Passed.Names.{param_names};
ghost use Rattle.node_table.specs.Names.{name_at};
ghost use Rattle.node_table.specs.Reading.{AreSlots, FitsSlots, IsArg, AreArgs, FitsArg, FitsArgs};
ghost use Rattle.node_table.specs.Shown.{arg_shown, args_shown};
ghost use Rattle.depth_first_run.specs.Stores.{Store, Held, nothing};
ghost use Rattle.depth_first_run.specs.Calls.{Passing, passed, all_passed};
ghost use Rattle.slot_store.specs.Rows.{blocks_at, HasNone};
ghost use Rattle.slot_store.specs.Shown.{slots_shown};
ghost use Rattle.slot_store.specs.Agreement.{ShowsStore};
ghost use Rattle.slot_store.specs.Calls.{EachOnce, EachHasBlock, passed_slots, store_with, Passes, PassesInteger, PassesIntegers, CanPass, CanPassAll, caller_behind, callee_behind, PassesBlocks};

use crate::expressions::evaluate;
use crate::slots::Slots;
use dag_order::FaultKind;
use node_table::CodeArg;

/// The arguments of a call come to the slots of its parameters, in the new row of the function that is called.
///
/// Expressions see the caller's slots as they are before the call. Blocks move, and no words are copied.
///
/// # Errors
///
/// The fault of the first argument that has one. The caller's slots are as they were, and no block has moved.
pub fn pass(
    caller: &mut Slots,
    callee: &mut Slots,
    params: &[u16],
    args: &[CodeArg],
) -> Result<(), FaultKind>
    requires params { FitsSlots (length (slots_shown callee.old)) params.now }
    requires args { FitsArgs (length (slots_shown caller.old)) (args_shown args.now) }
    requires new { (s : ℕ) → HasNone (slots_shown callee.old) s }
    requires params_once { EachOnce params.now }
    requires blocks_once { EachOnce (passed_slots (args_shown args.now)) }
    requires there { EachHasBlock (slots_shown caller.old) (passed_slots (args_shown args.now)) }
    ensures store { (names callee_names : List Name) (store : Store) (qs : List Param) (values : List Arg)
        → ShowsStore names (slots_shown caller.old) store → ShowsStore callee_names (slots_shown callee.old) nothing
        → AreSlots callee_names params.now (param_names qs) → AreArgs names (args_shown args.now) values
        → Passes names callee_names (all_passed store qs values) store result (slots_shown caller.new) (slots_shown callee.new) }
    ensures err { OnErr result (slots_shown caller.new ≡ slots_shown caller.old) }
    ensures none { OnErr result ((s : ℕ) → HasNone (slots_shown callee.new) s) }
{
    pass_integers(caller, callee, params, args)?;
    pass_blocks(caller, callee, params, args);
    Ok(())
}

/// The integers of the function that is called.
fn pass_integers(
    caller: &Slots,
    callee: &mut Slots,
    params: &[u16],
    args: &[CodeArg],
) -> Result<(), FaultKind>
    requires { FitsSlots (length (slots_shown callee.old)) params.now }
    ensures store { (names callee_names : List Name) (store : Store) (qs : List Param) (values : List Arg) (blocks : List Held) (g : Passing)
        → ShowsStore names (slots_shown caller.now) store
        → ShowsStore callee_names (slots_shown callee.old) (store_with g.callee.integers blocks)
        → AreSlots callee_names params.now (param_names qs) → AreArgs names (args_shown args.now) values
        → PassesIntegers callee_names store qs values blocks g result (slots_shown callee.new) }
    ensures count { length (slots_shown callee.new) ≡ length (slots_shown callee.old) }
    ensures blocks { (s : ℕ) → blocks_at (slots_shown callee.new) s ≡ blocks_at (slots_shown callee.old) s }
{
    for i in 0..params.len().min(args.len()) {
        pass_integer(caller, callee, params[i], &args[i])?;
    }
    Ok(())
}

/// An argument that is an integer comes to the slot of its parameter.
#[tactic(auto, unfolding(depth_first_run::specs::Calls::passed))]
fn pass_integer(
    caller: &Slots,
    callee: &mut Slots,
    param: u16,
    arg: &CodeArg,
) -> Result<(), FaultKind>
    requires { param < length (slots_shown callee.old) }
    ensures store { (names callee_names : List Name) (store : Store) (q : Param) (a : Arg) (blocks : List Held) (g : Passing)
        → ShowsStore names (slots_shown caller.now) store
        → ShowsStore callee_names (slots_shown callee.old) (store_with g.callee.integers blocks)
        → name_at callee_names param ≡ q.name → IsArg names (arg_shown arg.now) a
        → PassesInteger callee_names store q a blocks g result (slots_shown callee.new) }
    ensures count { length (slots_shown callee.new) ≡ length (slots_shown callee.old) }
    ensures blocks { (s : ℕ) → blocks_at (slots_shown callee.new) s ≡ blocks_at (slots_shown callee.old) s }
{
    match arg {
        CodeArg::Value(expr) => {
            let value = evaluate(caller, expr)?;
            callee.set_integer(param, value);
            Ok(())
        }
        CodeArg::Lend(_) | CodeArg::Give(_) => Ok(()),
    }
}

/// The blocks of the function that is called.
fn pass_blocks(caller: &mut Slots, callee: &mut Slots, params: &[u16], args: &[CodeArg])
    requires params { FitsSlots (length (slots_shown callee.old)) params.now }
    requires args { FitsArgs (length (slots_shown caller.old)) (args_shown args.now) }
    requires can { CanPassAll (slots_shown caller.old) (slots_shown callee.old) params.now (args_shown args.now) }
    ensures { (names callee_names : List Name) (store : Store) (qs : List Param) (values : List Arg) (own theirs : Name → ℤ) (g h : Passing)
        → AreSlots callee_names params.now (param_names qs) → AreArgs names (args_shown args.now) values
        → passed store qs values g ≡ Ok h
        → ShowsStore names (slots_shown caller.old) (store_with own g.caller.blocks)
        → ShowsStore callee_names (slots_shown callee.old) (store_with theirs g.callee.blocks)
        → ShowsStore names (slots_shown caller.new) (store_with own h.caller.blocks)
        × ShowsStore callee_names (slots_shown callee.new) (store_with theirs h.callee.blocks) }
{
    for i in 0..params.len().min(args.len()) {
        pass_block(caller, callee, params[i], &args[i]);
    }
}

/// An argument that is a block comes to the slot of its parameter.
#[tactic(auto, unfolding(depth_first_run::specs::Calls::passed))]
fn pass_block(caller: &mut Slots, callee: &mut Slots, param: u16, arg: &CodeArg)
    requires within { param < length (slots_shown callee.old) }
    requires fits { FitsArg (length (slots_shown caller.old)) (arg_shown arg.now) }
    requires can { CanPass (slots_shown caller.old) (slots_shown callee.old) param (arg_shown arg.now) }
    ensures caller { slots_shown caller.new ≡ caller_behind (slots_shown caller.old) (arg_shown arg.now) }
    ensures callee { slots_shown callee.new ≡ callee_behind (slots_shown caller.old) (slots_shown callee.old) param (arg_shown arg.now) }
    ensures store { (names callee_names : List Name) (store : Store) (q : Param) (a : Arg) (qs : List Param) (values : List Arg)
        (own theirs : Name → ℤ) (g h : Passing)
        → name_at callee_names param ≡ q.name → IsArg names (arg_shown arg.now) a → passed store (q ∷ qs) (a ∷ values) g ≡ Ok h
        → ShowsStore names (slots_shown caller.old) (store_with own g.caller.blocks)
        → ShowsStore callee_names (slots_shown callee.old) (store_with theirs g.callee.blocks)
        → PassesBlocks names callee_names store qs values own theirs h (slots_shown caller.new) (slots_shown callee.new) }
{
    match arg {
        CodeArg::Value(_) => {}
        CodeArg::Lend(slot) | CodeArg::Give(slot) => {
            let block = caller.take(*slot);
            callee.hold(param, block);
        }
    }
}
