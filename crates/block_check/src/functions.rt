//! Functions, and the program.

ghost use Rattle.std.specs.Prelude.{◌≡◌, []};
ghost use Rattle.par_tree.specs.View.{params_tree, ret_value_tree, ret_tree, func_tree};
ghost use Rattle.par_ownership.specs.Ownership.{function_of, main_name, begins};
ghost use Rattle.par_ownership.specs.Walk.{walk_params, walk_value, walk_return, func_refusal, funcs_refusal, names_refusal, main_case, program_refusal};
ghost use Rattle.block_check.specs.Shown.{env_shown, funcs_tree, Tests, Walks};

use crate::calls::{function_of, hands_back};
use crate::changes::{all_released, param_entry, with_entry};
use crate::entry::Entry;
use crate::environment::{unless, want_fresh};
use crate::expressions::check_expression;
use crate::refusal::{Tested, Walked};
use crate::statements::{check_statements, free};
use par_ownership::CheckKind;
use par_tree::{Func, Param, Ret, RetValue};
use std::alloc::Global;

/// The parameters of a function are declared in order.
fn parameters<'a>(line: u32, mut env: Vec<Entry<'a>>, params: &'a [Param]) -> Walked<'a>
    ensures { Walks env_shown result (walk_params line (params_tree params.now) (env_shown env.entry)) }
{
    for param in params {
        want_fresh(line, &env, &param.name.bytes)?;
        env = with_entry(env, param_entry(param, line))?;
    }
    Ok(env)
}

/// What a `return` gives back.
fn returned_value<'a>(line: u32, env: Vec<Entry<'a>>, value: &'a RetValue) -> Walked<'a>
    ensures { Walks env_shown result (walk_value line (ret_value_tree value.now) (env_shown env.entry)) }
{
    match value {
        RetValue::Int(value) => {
            check_expression(line, &env, value)?;
            Ok(env)
        }
        RetValue::Own(name) => free(line, env, name),
    }
}

/// The `return` of a function.
fn returned<'a>(env: Vec<Entry<'a>>, ret: &'a Option<Ret>) -> Walked<'a>
    ensures { Walks env_shown result (walk_return (ret_tree ret.now) (env_shown env.entry)) }
{
    match ret {
        None => Ok(env),
        Some(ret) => returned_value(ret.line, env, &ret.value),
    }
}

/// A function, from its parameters to its lent blocks.
fn function<'a>(alloc: Global, funcs: &'a [Func], func: &'a Func) -> Tested<'a>
    ensures { Tests result (func_refusal (funcs_tree funcs.now) (func_tree func.now)) }
{
    let start = parameters(func.line, Vec::new(alloc), &func.params)?;
    let end = check_statements(alloc, funcs, start, &func.body)?;
    let after = returned(end, &func.ret)?;
    all_released(0, &after)
}

/// The functions, in the order of the text.
fn functions<'a>(alloc: Global, funcs: &'a [Func]) -> Tested<'a>
    ensures { Tests result (funcs_refusal (funcs_tree funcs.now) (funcs_tree funcs.now)) }
{
    for func in funcs {
        function(alloc, funcs, func)?;
    }
    Ok(())
}

/// No function has the name of one before it.
fn have_new_names<'a>(funcs: &'a [Func]) -> Tested<'a>
    ensures { Tests result (names_refusal [] (funcs_tree funcs.now)) }
{
    for i in 0..funcs.len() {
        let func = &funcs[i];
        let name = &func.name.bytes;
        let is_new = function_of(&funcs[..i], name).is_none();
        unless(is_new, CheckKind::Redefined, func.line, name)?;
    }
    Ok(())
}

/// Whether a run can begin with a function.
fn begins(func: &Func) -> bool
    ensures { result ≡ begins (func_tree func.now) }
{
    func.params.is_empty() && !hands_back(&func.ret)
}

/// A run can begin with `main`.
fn main_begins<'a>(funcs: &'a [Func]) -> Tested<'a>
    ensures { Tests result (main_case (function_of (funcs_tree funcs.now) main_name)) }
{
    let name = b"main";
    match function_of(funcs, name) {
        None => unless(false, CheckKind::NoMain, 1, name),
        Some(func) => unless(begins(func), CheckKind::NoMain, 1, name),
    }
}

/// The first refusal of a program.
pub(crate) fn program<'a>(alloc: Global, funcs: &'a [Func]) -> Tested<'a>
    ensures { Tests result (program_refusal (funcs_tree funcs.now)) }
{
    have_new_names(funcs)?;
    main_begins(funcs)?;
    functions(alloc, funcs)
}
