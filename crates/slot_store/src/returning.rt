//! What a call takes back from the row of a function.

ghost use Rattle.std.specs.Prelude.{◌≡◌, ◌<◌, ◌∷◌, ℤ, List, length, Option, OnErr};
ghost use Rattle.depth_first_run.specs.Passed.Tree.{Name, Param, Arg, Target, Ret, RetValue};
ghost use Rattle.depth_first_run.specs.Passed.Names.{param_names};
ghost use Rattle.node_table.specs.Names.{name_at};
ghost use Rattle.node_table.specs.Reading.{AreSlots, FitsSlots, IsArg, AreArgs, FitsArg, FitsArgs, IsTarget, IsReturn, IsReturnValue};
ghost use Rattle.node_table.specs.Shown.{arg_shown, args_shown, target_shown, ret_shown, ret_value_shown};
ghost use Rattle.depth_first_run.specs.Stores.{Store, Held};
ghost use Rattle.depth_first_run.specs.Calls.{lent_back, answered};
ghost use Rattle.slot_store.specs.Shown.{slots_shown};
ghost use Rattle.slot_store.specs.Agreement.{ShowsStore};
ghost use Rattle.slot_store.specs.Calls.{EachOnce, EachHasBlock, EachHasNone, lent_params, lent_slots, store_with, left_over, answer_shown, value_answer, given_answer};
ghost use Rattle.slot_store.specs.Returns.{Receives, HasValue, HasAnswer, Answers, CanComeBack, CanComeBackAll, caller_again, callee_again, ComesBack};

use crate::answer::Answer;
use crate::expressions::evaluate;
use crate::slots::Slots;
use dag_order::FaultKind;
use node_table::{CodeArg, CodeRet, CodeRetValue, CodeTarget};

impl Slots {
    /// What a function hands to its caller when it ends with this `return`, or with none. A block leaves its slot.
    ///
    /// # Errors
    ///
    /// The fault of the expression. The slots are as they were.
    pub fn answer(&mut self, ret: &Option<CodeRet>) -> Result<Answer, FaultKind>
        requires { HasAnswer (slots_shown self.old) (ret_shown ret.now) }
        ensures store { (names : List Name) (store : Store) (r : Option Ret) → ShowsStore names (slots_shown self.old) store
            → IsReturn names (ret_shown ret.now) r → Answers names (given_answer r store) result (slots_shown self.new) }
        ensures err { OnErr result (slots_shown self.new ≡ slots_shown self.old) }
    {
        match ret {
            None => Ok(Answer::Number(0)),
            Some(ret) => self.answer_of(&ret.value),
        }
    }

    /// What a `return` hands to the caller.
    fn answer_of(&mut self, value: &CodeRetValue) -> Result<Answer, FaultKind>
        requires { HasValue (slots_shown self.old) (ret_value_shown value.now) }
        ensures store { (names : List Name) (store : Store) (v : RetValue) → ShowsStore names (slots_shown self.old) store
            → IsReturnValue names (ret_value_shown value.now) v → Answers names (value_answer v store) result (slots_shown self.new) }
        ensures err { OnErr result (slots_shown self.new ≡ slots_shown self.old) }
    {
        match value {
            CodeRetValue::Int(expr) => Ok(Answer::Number(evaluate(self, expr)?)),
            CodeRetValue::Own(slot) => Ok(Answer::Items(self.take(*slot))),
        }
    }

    /// The answer of a call goes to its target.
    pub fn receive(&mut self, target: CodeTarget, answer: Answer)
        requires { Receives (slots_shown self.old) (target_shown target) (answer_shown answer) }
        ensures { (names : List Name) (store : Store) (t : Target) → ShowsStore names (slots_shown self.old) store
            → IsTarget names (target_shown target) t → ShowsStore names (slots_shown self.new) (answered t (answer_shown answer) store) }
    {
        match (target, answer) {
            (CodeTarget::Int(slot), Answer::Number(value)) => self.set_integer(slot, value),
            (CodeTarget::Own(slot), Answer::Items(block)) => self.hold(slot, block),
            _ => {}
        }
    }
}

/// The blocks that a call lent come back to the slots of the caller. What else the function holds stays in its row.
pub fn lend_back(caller: &mut Slots, callee: &mut Slots, params: &[u16], args: &[CodeArg])
    requires params { FitsSlots (length (slots_shown callee.old)) params.now }
    requires args { FitsArgs (length (slots_shown caller.old)) (args_shown args.now) }
    requires params_once { EachOnce (lent_params params.now (args_shown args.now)) }
    requires slots_once { EachOnce (lent_slots params.now (args_shown args.now)) }
    requires there { EachHasBlock (slots_shown callee.old) (lent_params params.now (args_shown args.now)) }
    requires none { EachHasNone (slots_shown caller.old) (lent_slots params.now (args_shown args.now)) }
    ensures { (names callee_names : List Name) (own theirs : Store) (qs : List Param) (values : List Arg)
        → ShowsStore names (slots_shown caller.old) own → ShowsStore callee_names (slots_shown callee.old) theirs
        → AreSlots callee_names params.now (param_names qs) → AreArgs names (args_shown args.now) values
        → ShowsStore names (slots_shown caller.new) (lent_back qs values theirs.blocks own)
        × ShowsStore callee_names (slots_shown callee.new) (store_with theirs.integers (left_over qs values theirs.blocks)) }
{
    bring_back(caller, callee, params, args);
}

/// The blocks come back, one after another.
fn bring_back(caller: &mut Slots, callee: &mut Slots, params: &[u16], args: &[CodeArg])
    requires params { FitsSlots (length (slots_shown callee.old)) params.now }
    requires args { FitsArgs (length (slots_shown caller.old)) (args_shown args.now) }
    requires can { CanComeBackAll (slots_shown caller.old) (slots_shown callee.old) params.now (args_shown args.now) }
    ensures { (names callee_names : List Name) (own theirs : Store) (qs : List Param) (values : List Arg)
        → ShowsStore names (slots_shown caller.old) own → ShowsStore callee_names (slots_shown callee.old) theirs
        → AreSlots callee_names params.now (param_names qs) → AreArgs names (args_shown args.now) values
        → ShowsStore names (slots_shown caller.new) (lent_back qs values theirs.blocks own)
        × ShowsStore callee_names (slots_shown callee.new) (store_with theirs.integers (left_over qs values theirs.blocks)) }
{
    for i in 0..params.len().min(args.len()) {
        bring_block(caller, callee, params[i], &args[i]);
    }
}

/// A block that was lent comes back.
#[tactic(auto, unfolding(depth_first_run::specs::Calls::lent_back))]
fn bring_block(caller: &mut Slots, callee: &mut Slots, param: u16, arg: &CodeArg)
    requires within { param < length (slots_shown callee.old) }
    requires fits { FitsArg (length (slots_shown caller.old)) (arg_shown arg.now) }
    requires can { CanComeBack (slots_shown caller.old) (slots_shown callee.old) param (arg_shown arg.now) }
    ensures caller { slots_shown caller.new ≡ caller_again (slots_shown caller.old) (slots_shown callee.old) param (arg_shown arg.now) }
    ensures callee { slots_shown callee.new ≡ callee_again (slots_shown callee.old) param (arg_shown arg.now) }
    ensures store { (names callee_names : List Name) (q : Param) (a : Arg) (qs : List Param) (values : List Arg)
        (behind own : Store) (left theirs : List Held) (integers : Name → ℤ)
        → name_at callee_names param ≡ q.name → IsArg names (arg_shown arg.now) a
        → lent_back (q ∷ qs) (a ∷ values) theirs own ≡ behind → left_over (q ∷ qs) (a ∷ values) theirs ≡ left
        → ShowsStore names (slots_shown caller.old) own → ShowsStore callee_names (slots_shown callee.old) (store_with integers theirs)
        → ComesBack names callee_names qs values behind left integers (slots_shown caller.new) (slots_shown callee.new) }
{
    match arg {
        CodeArg::Lend(slot) => {
            let block = callee.take(param);
            caller.hold(*slot, block);
        }
        CodeArg::Value(_) | CodeArg::Give(_) => {}
    }
}
