//! Calls: where they begin.

ghost use Rattle.std.specs.Prelude.{◌≡◌, ◌<◌, ◌≤◌, ◌+◌, ◌⊎◌, ◌∷◌, [], ℕ, List, length, false, pred, Result, Ok, Err, MatchResult, MatchOption, vec_len, vec_capacity};
ghost use Rattle.dag_order.specs.declared.fault.FaultKind.TheVariants.{Depth, Turns};
ghost use Rattle.depth_first_run.specs.Passed.Tree.{Name, Param, Arg};
ghost use Rattle.depth_first_run.specs.Passed.Names.{param_names};
ghost use Rattle.node_table.specs.Reading.{AreSlots, AreArgs, IsArg};
ghost use Rattle.node_table.specs.Shown.{arg_shown, args_shown};
ghost use Rattle.depth_first_run.specs.Stores.{Store};
ghost use Rattle.depth_first_run.specs.States.{Setting, State};
ghost use Rattle.depth_first_run.specs.Calls.{Passing, passed, all_passed, entered};
ghost use Rattle.depth_first_run.specs.Run.{on_store};
ghost use Rattle.slot_store.specs.Shown.{slots_shown};
ghost use Rattle.slot_store.specs.Agreement.{ShowsStore, AreDistinct};
ghost use Rattle.thread_state.specs.Calls.{CanCall, begun, PassesValue, PassesValues, Refuses};

use crate::state::ThreadState;
use crate::stop::Stop;
use dag_order::FaultKind;
use language_limits::MOST_CALLS;
use node_table::CodeArg;
use slot_store::{Slots, evaluate, pass};
use std::alloc::Global;
use std::mem;

impl ThreadState {
    ghost use Rattle.thread_state.specs.States.{IsState, own_row, rows_of};
    ghost use Rattle.thread_state.specs.Effects.{GoesOrStops};

    /// A call of a function with so many slots: its arguments come to its row, and its caller's row waits. It is a turn.
    ///
    /// # Errors
    ///
    /// The fault of an argument; or else `Depth`, where as many calls are open as may be; or else `Turns`, where the thread has no turn left;
    /// or want of memory. The thread is as it was.
    pub fn call(
        &mut self,
        alloc: Global,
        count: u16,
        params: &[u16],
        args: &[CodeArg],
    ) -> Result<(), Stop>
        requires going { self.old.faulted ≡ false }
        requires can { CanCall count (own_row self.old) params.now (args_shown args.now) }
        ensures state { (contexts : List (List Name)) (names callee_names : List Name) (c : Setting) (line : ℕ) (qs : List Param)
            (values : List Arg) → c.most_calls ≡ MOST_CALLS → AreDistinct callee_names → length callee_names ≡ count
            → AreSlots callee_names params.now (param_names qs) → AreArgs names (args_shown args.now) values
            → GoesOrStops (names ∷ contexts) (callee_names ∷ names ∷ contexts) line self.old result self.new
            (λ s. begun c line (all_passed s.store qs values) s) }
        ensures going { self.new.faulted ≡ self.old.faulted }
        ensures turns { MatchResult result (λ _. self.new.turns + 1 ≡ self.old.turns) (λ _. self.new.turns ≡ self.old.turns) }
    {
        if let Some(limit) = self.limit_of_calls() {
            return Err(Stop::Fault(self.refusal(limit, params, args)));
        }
        let Ok(mut callee) = Slots::new(alloc, count) else {
            return Err(Stop::OutOfMemory);
        };
        let Ok(()) = self.callers.reserve(1) else {
            return Err(Stop::OutOfMemory);
        };
        match pass(&mut self.slots, &mut callee, params, args) {
            Ok(()) => {
                self.enter(callee);
                Ok(())
            }
            Err(kind) => Err(Stop::Fault(kind)),
        }
    }

    /// The fault that a call meets whose arguments are without fault, where it meets one.
    fn limit_of_calls(&self) -> Option<FaultKind>
        ensures { MatchOption result ((self.now.calls < MOST_CALLS) × (0 < self.now.turns))
            (λ kind. ((kind ≡ Depth) × (MOST_CALLS ≤ self.now.calls))
            ⊎ ((kind ≡ Turns) × (self.now.calls < MOST_CALLS) × (self.now.turns ≡ 0))) }
    {
        if self.calls >= MOST_CALLS {
            Some(FaultKind::Depth)
        } else if self.turns == 0 {
            Some(FaultKind::Turns)
        } else {
            None
        }
    }

    /// The fault of a call that meets a limit: that of an argument, or else that of the limit.
    fn refusal(&self, limit: FaultKind, params: &[u16], args: &[CodeArg]) -> FaultKind
        ensures { (names callee_names : List Name) (store : Store) (qs : List Param) (values : List Arg)
            → ShowsStore names (own_row self.now) store → AreSlots callee_names params.now (param_names qs)
            → AreArgs names (args_shown args.now) values
            → Refuses limit result (all_passed store qs values) }
    {
        match check_values(&self.slots, params, args) {
            Ok(()) => limit,
            Err(kind) => kind,
        }
    }

    /// A function begins: its call is open, and its caller's row waits.
    fn enter(&mut self, callee: Slots)
        requires calls { self.old.calls < MOST_CALLS }
        requires turns { 0 < self.old.turns }
        requires room { vec_len self.old.callers < vec_capacity self.old.callers }
        ensures rows { rows_of self.new ≡ slots_shown callee ∷ rows_of self.old }
        ensures label { self.new.label ≡ self.old.label }
        ensures done { self.new.done ≡ self.old.done }
        ensures forks { self.new.forks ≡ self.old.forks }
        ensures faulted { self.new.faulted ≡ self.old.faulted }
        ensures calls { self.new.calls ≡ self.old.calls + 1 }
        ensures turns { self.new.turns + 1 ≡ self.old.turns }
    {
        let caller = mem::replace(&mut self.slots, callee);
        self.callers.push_reserved(caller);
        self.calls += 1;
        self.turns -= 1;
    }
}

/// Whether each argument that is a number has one.
///
/// # Errors
///
/// The fault of the first argument that has one.
fn check_values(slots: &Slots, params: &[u16], args: &[CodeArg]) -> Result<(), FaultKind>
    ensures { (names callee_names : List Name) (store : Store) (qs : List Param) (values : List Arg) (g : Passing)
        → ShowsStore names (slots_shown slots.now) store → AreSlots callee_names params.now (param_names qs)
        → AreArgs names (args_shown args.now) values → PassesValues store qs values g result }
{
    for i in 0..params.len().min(args.len()) {
        check_value(slots, &args[i])?;
    }
    Ok(())
}

/// Whether an argument that is a number has one.
#[tactic(auto, unfolding(depth_first_run::specs::Calls::passed))]
fn check_value(slots: &Slots, arg: &CodeArg) -> Result<(), FaultKind>
    ensures { (names : List Name) (store : Store) (q : Param) (a : Arg) (g : Passing)
        → ShowsStore names (slots_shown slots.now) store → IsArg names (arg_shown arg.now) a → PassesValue store q a g result }
{
    match arg {
        CodeArg::Value(expr) => {
            let _value = evaluate(slots, expr)?;
            Ok(())
        }
        CodeArg::Lend(_) | CodeArg::Give(_) => Ok(()),
    }
}
