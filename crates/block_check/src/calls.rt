//! Calls.

ghost use Rattle.std.specs.Prelude.{◌≡◌, length, []};
ghost use Rattle.std.specs.Option.{option_map};
ghost use Rattle.std.specs.List.{list_any};
ghost use Rattle.par_tree.specs.View.{name_tree, ret_tree, target_tree, param_tree, param_kind_tree, params_tree, arg_tree, args_tree, func_tree};
ghost use Rattle.par_ownership.specs.Ownership.{function_of, hands_back, takes_answer, passes};
ghost use Rattle.par_ownership.specs.Walk.{first_of, block_refusal, lent_refusal, target_refusal, shared_refusal, arg_refusal, args_refusal, call_refusal};
ghost use Rattle.block_check.specs.Shown.{entries_shown, funcs_tree, Tests};

use crate::entry::Entry;
use crate::environment::{unless, want_block, want_fresh, want_integer, want_not_lent};
use crate::expressions::check_expression;
use crate::mentions::is_name;
use crate::refusal::Tested;
use par_ownership::CheckKind;
use par_tree::{Arg, Func, Name, Param, ParamKind, Ret, RetValue, Target};

/// The function of a name.
pub fn function_of<'f>(funcs: &'f [Func], name: &[u8]) -> Option<&'f Func>
    ensures { option_map (λ f. func_tree f.now) result ≡ function_of (funcs_tree funcs.now) name.now }
{
    for func in funcs {
        if is_name(&func.name, name) {
            return Some(func);
        }
    }
    None
}

/// Whether a `return` hands a block back.
pub(crate) fn hands_back(ret: &Option<Ret>) -> bool
    ensures { result ≡ hands_back (ret_tree ret.now) }
{
    match ret {
        None => false,
        Some(ret) => match ret.value {
            RetValue::Int(_) => false,
            RetValue::Own(_) => true,
        },
    }
}

/// A block is taken from a function that hands one back, and from no other.
fn takes_answer(target: &Target, handed: bool) -> bool
    ensures { result ≡ takes_answer (target_tree target.now) handed }
{
    match target {
        Target::Unused | Target::Int(_) => !handed,
        Target::Own(_) => handed,
    }
}

/// The target of a call.
fn target<'a>(line: u32, env: &[Entry], target: &'a Target) -> Tested<'a>
    ensures { Tests result (target_refusal line (entries_shown env.now) (target_tree target.now)) }
{
    match target {
        Target::Unused => Ok(()),
        Target::Int(name) => want_integer(line, env, &name.bytes),
        Target::Own(name) => want_fresh(line, env, &name.bytes),
    }
}

/// Whether an argument passes a block of this name.
fn passes(name: &[u8], arg: &Arg) -> bool
    ensures { result ≡ passes name.now (arg_tree arg.now) }
{
    match arg {
        Arg::Value(_) => false,
        Arg::Lend(written) | Arg::Give(written) => is_name(written, name),
    }
}

/// Whether one of the arguments passes a block of this name.
fn is_passed(name: &[u8], before: &[Arg]) -> bool
    ensures { result ≡ list_any (passes name.now) (args_tree before.now) }
{
    for arg in before {
        if passes(name, arg) {
            return true;
        }
    }
    false
}

/// A block is passed once in a call.
fn not_shared<'a>(line: u32, before: &[Arg], name: &'a [u8]) -> Tested<'a>
    ensures { Tests result (shared_refusal line (args_tree before.now) name.now) }
{
    unless(!is_passed(name, before), CheckKind::SharedBlock, line, name)
}

/// A block that a call lends.
fn lent_block<'a>(line: u32, env: &[Entry], before: &[Arg], name: &'a Name) -> Tested<'a>
    ensures { Tests result (first_of (block_refusal line (entries_shown env.now) (name_tree name.now))
        (shared_refusal line (args_tree before.now) (name_tree name.now))) }
{
    want_block(line, env, &name.bytes)?;
    not_shared(line, before, &name.bytes)
}

/// A block that a call gives away.
fn given_block<'a>(line: u32, env: &[Entry], before: &[Arg], name: &'a Name) -> Tested<'a>
    ensures { Tests result (first_of (block_refusal line (entries_shown env.now) (name_tree name.now))
        (first_of (shared_refusal line (args_tree before.now) (name_tree name.now))
        (lent_refusal line (entries_shown env.now) (name_tree name.now)))) }
{
    want_block(line, env, &name.bytes)?;
    not_shared(line, before, &name.bytes)?;
    want_not_lent(line, env, &name.bytes)
}

/// An argument is of the kind that its parameter takes.
fn argument<'a>(
    line: u32,
    env: &[Entry],
    before: &[Arg],
    param: &'a Param,
    arg: &'a Arg,
) -> Tested<'a>
    ensures { Tests result (arg_refusal line (entries_shown env.now) (args_tree before.now) (name_tree param.now.name)
        (param_kind_tree param.now.kind) (arg_tree arg.now)) }
{
    let wanted = &param.name.bytes;
    match param.kind {
        ParamKind::Int => match arg {
            Arg::Value(expr) => check_expression(line, env, expr),
            Arg::Lend(_) | Arg::Give(_) => unless(false, CheckKind::WrongKind, line, wanted),
        },
        ParamKind::Lent => match arg {
            Arg::Lend(name) => lent_block(line, env, before, name),
            Arg::Value(_) | Arg::Give(_) => unless(false, CheckKind::WrongKind, line, wanted),
        },
        ParamKind::Owned => match arg {
            Arg::Give(name) => given_block(line, env, before, name),
            Arg::Value(_) | Arg::Lend(_) => unless(false, CheckKind::WrongKind, line, wanted),
        },
    }
}

/// The arguments of a call, in order.
fn arguments<'a>(line: u32, env: &[Entry], params: &'a [Param], args: &'a [Arg]) -> Tested<'a>
    requires { length args.now ≡ length params.now }
    ensures { Tests result (args_refusal line (entries_shown env.now) [] (params_tree params.now) (args_tree args.now)) }
{
    for i in 0..args.len() {
        argument(line, env, &args[..i], &params[i], &args[i])?;
    }
    Ok(())
}

/// A call of a function.
pub(crate) fn call<'a>(
    funcs: &'a [Func],
    line: u32,
    env: &[Entry],
    answer: &'a Target,
    name: &'a Name,
    args: &'a [Arg],
) -> Tested<'a>
    ensures { Tests result (call_refusal (funcs_tree funcs.now) line (entries_shown env.now) (target_tree answer.now) (name_tree name.now)
        (args_tree args.now)) }
{
    target(line, env, answer)?;
    let called = &name.bytes;
    let Some(func) = function_of(funcs, called) else {
        return unless(false, CheckKind::UnknownName, line, called);
    };
    unless(
        args.len() == func.params.len(),
        CheckKind::WrongCount,
        line,
        called,
    )?;
    let fits = takes_answer(answer, hands_back(&func.ret));
    unless(fits, CheckKind::WrongKind, line, called)?;
    arguments(line, env, &func.params, args)
}
