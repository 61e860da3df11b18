//! The beginning of the root, expressions, and the statements that do no action.

ghost use Rattle.std.specs.Prelude.{◌≡◌, ◌+◌, ◌<◌, ◌∷◌, [], ℕ, List, length, false, IfOk, OnErr, MatchResult};
ghost use Rattle.language_limits.specs.declared.TheConstants.{GREATEST_COUNT};
ghost use Rattle.depth_first_run.specs.Passed.Tree.{Name, Expr};
ghost use Rattle.node_table.specs.Names.{name_at};
ghost use Rattle.node_table.specs.Shown.{expr_shown};
ghost use Rattle.node_table.specs.Reading.{IsExpr};
ghost use Rattle.depth_first_run.specs.Passed.Actions.{Deed};
ghost use Rattle.depth_first_run.specs.Values.{value};
ghost use Rattle.depth_first_run.specs.States.{Setting, State, with_action, with_number, with_turn};
ghost use Rattle.depth_first_run.specs.Run.{root_start, set_integer, put_value, unchanged};
ghost use Rattle.slot_store.specs.Agreement.{AreDistinct};

use crate::state::ThreadState;
use dag_order::{FaultKind, Label};
use language_limits::MOST_TURNS;
use node_table::CodeExpr;
use slot_store::{Slots, evaluate};
use std::alloc::{AllocError, Global};

impl ThreadState {
    ghost use Rattle.thread_state.specs.States.{IsState, own_row};
    ghost use Rattle.thread_state.specs.Effects.{Goes, GoesOrFaults};

    /// The root before its first statement, for a `main` with so many slots.
    ///
    /// # Errors
    ///
    /// There is not enough memory.
    pub fn root(alloc: Global, count: u16) -> Result<ThreadState, AllocError>
        ensures { IfOk result (λ root. (c : Setting) (names : List Name) → c.most_turns ≡ MOST_TURNS → AreDistinct names
            → length names ≡ count → IsState (names ∷ []) root (root_start c)) }
    {
        let slots = Slots::new(alloc, count)?;
        Ok(ThreadState {
            label: Label::root(alloc),
            done: 0,
            forks: 0,
            faulted: false,
            slots,
            callers: Vec::new(alloc),
            calls: 1,
            turns: MOST_TURNS,
        })
    }

    /// The state of a thread that runs nothing. It takes no memory.
    pub fn blank(alloc: Global) -> ThreadState
        ensures label { result.label ≡ [] }
        ensures slots { own_row result ≡ [] }
    {
        ThreadState {
            label: Label::root(alloc),
            done: 0,
            forks: 0,
            faulted: false,
            slots: Slots::empty(alloc),
            callers: Vec::new(alloc),
            calls: 1,
            turns: MOST_TURNS,
        }
    }

    /// The number of an expression, or the fault that comes in its place.
    ///
    /// # Errors
    ///
    /// `Index` or `Divide`, exactly as the depth-first run says.
    pub fn evaluate(&self, expr: &CodeExpr) -> Result<i64, FaultKind>
        requires { self.now.faulted ≡ false }
        ensures { (contexts : List (List Name)) (names : List Name) (s : State) (e : Expr) → IsState (names ∷ contexts) self.now s
            → IsExpr names (expr_shown expr.now) e → result ≡ value s.store e }
    {
        evaluate(&self.slots, expr)
    }

    /// `let x = e;` and `x = e;`
    ///
    /// # Errors
    ///
    /// The fault of the expression. The thread is as it was.
    pub fn set(&mut self, slot: u16, expr: &CodeExpr) -> Result<(), FaultKind>
        requires going { self.old.faulted ≡ false }
        requires within { slot < length (own_row self.old) }
        ensures state { (contexts : List (List Name)) (names : List Name) (line : ℕ) (e : Expr) → IsExpr names (expr_shown expr.now) e
            → GoesOrFaults (names ∷ contexts) (names ∷ contexts) line self.old result self.new
            (λ s. with_number line (value s.store e) (set_integer (name_at names slot)) s) }
        ensures going { self.new.faulted ≡ self.old.faulted }
        ensures turns { self.new.turns ≡ self.old.turns }
        ensures same { OnErr result (self.new ≡ self.old) }
    {
        let value = evaluate(&self.slots, expr)?;
        self.slots.set_integer(slot, value);
        Ok(())
    }

    /// `b[i] = e;`: the place is tested when both are evaluated.
    ///
    /// # Errors
    ///
    /// The fault of the index, that of the expression, or `Index`. The thread is as it was.
    pub fn put(&mut self, slot: u16, index: &CodeExpr, expr: &CodeExpr) -> Result<(), FaultKind>
        requires going { self.old.faulted ≡ false }
        requires within { slot < length (own_row self.old) }
        ensures state { (contexts : List (List Name)) (names : List Name) (line : ℕ) (i e : Expr) → IsExpr names (expr_shown index.now) i
            → IsExpr names (expr_shown expr.now) e
            → GoesOrFaults (names ∷ contexts) (names ∷ contexts) line self.old result self.new
            (λ s. with_number line (value s.store i) (put_value line (name_at names slot) e) s) }
        ensures going { self.new.faulted ≡ self.old.faulted }
        ensures turns { self.new.turns ≡ self.old.turns }
        ensures same { OnErr result (self.new ≡ self.old) }
    {
        let index = evaluate(&self.slots, index)?;
        let value = evaluate(&self.slots, expr)?;
        match self.slots.put(slot, index, value) {
            Ok(()) => Ok(()),
            Err(kind) => Err(kind),
        }
    }

    /// A round of a loop is a turn.
    ///
    /// # Errors
    ///
    /// `Turns`, exactly where the thread has no turn left. The thread is as it was.
    pub fn turn(&mut self) -> Result<(), FaultKind>
        ensures state { (contexts : List (List Name)) (line : ℕ) → GoesOrFaults contexts contexts line self.old result self.new
            (with_turn line unchanged) }
        ensures going { self.new.faulted ≡ self.old.faulted }
        ensures turns { MatchResult result (λ _. self.new.turns + 1 ≡ self.old.turns) (λ _. self.new.turns ≡ self.old.turns) }
        ensures same { OnErr result (self.new ≡ self.old) }
    {
        if self.turns == 0 {
            return Err(FaultKind::Turns);
        }
        self.turns -= 1;
        Ok(())
    }

    /// An action that changes nothing but the count of actions: a dummy, or the End.
    pub fn count_action(&mut self)
        requires { self.old.done < GREATEST_COUNT }
        ensures { (contexts : List (List Name)) (deed : Deed) (words : ℕ) → Goes contexts contexts self.old self.new (with_action deed words) }
    {
        self.done += 1;
    }
}
