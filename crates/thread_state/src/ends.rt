//! Calls: where they end.

ghost use Rattle.std.specs.Prelude.{◌≡◌, ◌<◌, ◌+◌, ◌∷◌, ℕ, List, Option, length, false, vec_len};
ghost use Rattle.depth_first_run.specs.Passed.Tree.{Name, Param, Arg, Target, Ret};
ghost use Rattle.depth_first_run.specs.Passed.Names.{param_names};
ghost use Rattle.node_table.specs.Names.{name_at};
ghost use Rattle.node_table.specs.Reading.{AreSlots, AreArgs, IsTarget, IsReturn};
ghost use Rattle.node_table.specs.Shown.{args_shown, target_shown, ret_shown};
ghost use Rattle.depth_first_run.specs.Stores.{Store};
ghost use Rattle.depth_first_run.specs.States.{State, unless_faulted};
ghost use Rattle.depth_first_run.specs.Calls.{with_answer, returned, lent_back, answered, number as as_number};
ghost use Rattle.depth_first_run.specs.Run.{ignore_answer};
ghost use Rattle.slot_store.specs.Calls.{EachHasNone, lent_params, lent_slots};
ghost use Rattle.slot_store.specs.Shown.{slots_shown};
ghost use Rattle.slot_store.specs.Agreement.{ShowsStore};
ghost use Rattle.thread_state.specs.Calls.{CanEnd, CanResume, CanGoBack, CanEndMain, HandsItsOwn, TakesNumber, TakesBlock, handing, return_line};
ghost use Rattle.node_table.specs.Table.{hands as as_hands};

use crate::state::ThreadState;
use dag_order::FaultKind;
use node_table::{CodeArg, CodeRet, CodeRetValue, CodeTarget};
use slot_store::{Slots, evaluate, lend_back};

impl ThreadState {
    ghost use Rattle.thread_state.specs.States.{IsState, own_row, rows_of};
    ghost use Rattle.thread_state.specs.Effects.{Goes, GoesOrFaults};

    /// The end of a call: its lent blocks and its answer go to its caller, whose row is taken up again. A thread that a fault ended skips it.
    ///
    /// # Errors
    ///
    /// The fault of the expression of the `return`, at its line. The thread is as it was.
    pub fn end_call(
        &mut self,
        ret: &Option<CodeRet>,
        params: &[u16],
        args: &[CodeArg],
        target: CodeTarget,
    ) -> Result<(), FaultKind>
        requires { self.old.faulted ≡ false
            → CanEnd (rows_of self.old) params.now (args_shown args.now) (target_shown target) (ret_shown ret.now) }
        ensures state { (contexts : List (List Name)) (names callee_names : List Name) (r : Option Ret) (qs : List Param) (values : List Arg)
            (t : Target) → IsReturn callee_names (ret_shown ret.now) r → AreSlots callee_names params.now (param_names qs)
            → AreArgs names (args_shown args.now) values → IsTarget names (target_shown target) t
            → GoesOrFaults (callee_names ∷ names ∷ contexts) (names ∷ contexts) (return_line (ret_shown ret.now)) self.old result self.new
            (unless_faulted (with_answer r (returned qs values t))) }
        ensures going { self.new.faulted ≡ self.old.faulted }
        ensures turns { self.new.turns ≡ self.old.turns }
    {
        if self.faulted {
            return Ok(());
        }
        let Some(ret) = ret else {
            self.return_number(0, params, args, target);
            return Ok(());
        };
        match &ret.value {
            CodeRetValue::Int(expr) => match evaluate(&self.slots, expr) {
                Ok(value) => {
                    self.return_number(value, params, args, target);
                    Ok(())
                }
                Err(kind) => Err(kind),
            },
            CodeRetValue::Own(slot) => {
                self.return_block(*slot, params, args, target);
                Ok(())
            }
        }
    }

    /// The end of `main`, whose value is dropped. A thread that a fault ended skips it.
    ///
    /// # Errors
    ///
    /// The fault of the expression of the `return`, at its line.
    pub fn end_main(&self, ret: &Option<CodeRet>) -> Result<(), FaultKind>
        requires { self.now.faulted ≡ false → CanEndMain (own_row self.now) (ret_shown ret.now) }
        ensures { (contexts : List (List Name)) (names : List Name) (r : Option Ret) → IsReturn names (ret_shown ret.now) r
            → GoesOrFaults (names ∷ contexts) (names ∷ contexts) (return_line (ret_shown ret.now)) self.now result self.now
            (unless_faulted (with_answer r ignore_answer)) }
    {
        if self.faulted {
            return Ok(());
        }
        let Some(ret) = ret else {
            return Ok(());
        };
        match &ret.value {
            CodeRetValue::Int(expr) => match evaluate(&self.slots, expr) {
                Ok(_) => Ok(()),
                Err(kind) => Err(kind),
            },
            CodeRetValue::Own(_) => Ok(()),
        }
    }

    /// A function ends with a number.
    fn return_number(&mut self, value: i64, params: &[u16], args: &[CodeArg], target: CodeTarget)
        requires going { self.old.faulted ≡ false }
        requires can { CanResume (rows_of self.old) params.now (args_shown args.now) (λ caller. TakesNumber caller (target_shown target)) }
        ensures state { (contexts : List (List Name)) (names callee_names : List Name) (qs : List Param) (values : List Arg) (t : Target)
            → AreSlots callee_names params.now (param_names qs) → AreArgs names (args_shown args.now) values
            → IsTarget names (target_shown target) t
            → Goes (callee_names ∷ names ∷ contexts) (names ∷ contexts) self.old self.new (returned qs values t (as_number value)) }
        ensures going { self.new.faulted ≡ self.old.faulted }
        ensures turns { self.new.turns ≡ self.old.turns }
    {
        let Some(mut caller) = self.callers.pop() else {
            unreachable!()
        };
        take_number(&mut caller, target, value);
        self.resume(caller, params, args);
    }

    /// A function ends with the block of a slot.
    fn return_block(&mut self, slot: u16, params: &[u16], args: &[CodeArg], target: CodeTarget)
        requires going { self.old.faulted ≡ false }
        requires hands { HandsItsOwn (own_row self.old) (lent_params params.now (args_shown args.now)) (as_hands slot) }
        requires can { CanResume (rows_of self.old) params.now (args_shown args.now)
            (λ caller. TakesBlock caller (lent_slots params.now (args_shown args.now)) (target_shown target)) }
        ensures state { (contexts : List (List Name)) (names callee_names : List Name) (qs : List Param) (values : List Arg) (t : Target)
            → AreSlots callee_names params.now (param_names qs) → AreArgs names (args_shown args.now) values
            → IsTarget names (target_shown target) t
            → Goes (callee_names ∷ names ∷ contexts) (names ∷ contexts) self.old self.new
            (handing (name_at callee_names slot) (returned qs values t)) }
        ensures going { self.new.faulted ≡ self.old.faulted }
        ensures turns { self.new.turns ≡ self.old.turns }
    {
        let Some(mut caller) = self.callers.pop() else {
            unreachable!()
        };
        let CodeTarget::Own(place) = target else {
            unreachable!()
        };
        let block = self.slots.take(slot);
        caller.hold(place, block);
        self.resume(caller, params, args);
    }

    /// The blocks that were lent go back, and the caller's row is taken up again.
    fn resume(&mut self, caller: Slots, params: &[u16], args: &[CodeArg])
        requires back { CanGoBack (own_row self.old) (slots_shown caller) params.now (args_shown args.now) }
        requires calls { vec_len self.old.callers + 1 < self.old.calls }
        ensures row { (names callee_names : List Name) (own theirs : Store) (qs : List Param) (values : List Arg)
            → ShowsStore names (slots_shown caller) own → ShowsStore callee_names (own_row self.old) theirs
            → AreSlots callee_names params.now (param_names qs) → AreArgs names (args_shown args.now) values
            → ShowsStore names (own_row self.new) (lent_back qs values theirs.blocks own) }
        ensures callers { self.new.callers.items ≡ self.old.callers.items }
        ensures label { self.new.label ≡ self.old.label }
        ensures done { self.new.done ≡ self.old.done }
        ensures forks { self.new.forks ≡ self.old.forks }
        ensures faulted { self.new.faulted ≡ self.old.faulted }
        ensures calls { self.new.calls + 1 ≡ self.old.calls }
        ensures turns { self.new.turns ≡ self.old.turns }
    {
        let mut caller = caller;
        lend_back(&mut caller, &mut self.slots, params, args);
        self.slots = caller;
        self.calls -= 1;
    }
}

/// A number goes to the target of a call: to an integer, or nowhere.
fn take_number(caller: &mut Slots, target: CodeTarget, value: i64)
    requires { TakesNumber (slots_shown caller.old) (target_shown target) }
    ensures store { (names : List Name) (store : Store) (t : Target) → ShowsStore names (slots_shown caller.old) store
        → IsTarget names (target_shown target) t → ShowsStore names (slots_shown caller.new) (answered t (as_number value) store) }
    ensures count { length (slots_shown caller.new) ≡ length (slots_shown caller.old) }
    ensures none { (slots : List ℕ) → EachHasNone (slots_shown caller.old) slots → EachHasNone (slots_shown caller.new) slots }
{
    if let CodeTarget::Int(slot) = target {
        caller.set_integer(slot, value);
    }
}
