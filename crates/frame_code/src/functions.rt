//! Functions as code.

ghost use Rattle.std.specs.Prelude.{◌≡◌, ◌≤◌, ◌+◌, IfOk, length};
ghost use Rattle.par_tree.specs.View.{params_tree, func_tree};
ghost use Rattle.par_tree.specs.Names.{param_names};
ghost use Rattle.block_check.specs.Shown.{funcs_tree};
ghost use Rattle.accepted_source.specs.Sizes.{body_size, functions_size};
ghost use Rattle.node_table.specs.Names.{slot_names};
ghost use Rattle.node_table.specs.Programs.{IsFunc, AreFuncs};
ghost use Rattle.node_table.specs.Reading.{AreSlots};
ghost use Rattle.node_table.specs.Shown.{nodes_shown, func_shown, funcs_shown};
ghost use Rattle.frame_code.specs.Growing.{Grown};
ghost use Rattle.frame_code.specs.Scopes.{names_tree, functions_in, functions_of, names_of_scope};
ghost use Rattle.frame_code.specs.Slotted.{HasAll, HasFunc, CanBeLowered, most_slots, most_nodes};

use crate::declared::slot_names;
use crate::expressions::lower_return;
use crate::function_numbers::FunctionNumbers;
use crate::scope::Scope;
use crate::slot_names::SlotNames;
use crate::statements::lower_list;
use node_table::{FuncCode, Node, Slots};
use par_tree::{Func, Param};
use std::alloc::{AllocError, Global};

/// The slots of parameters.
fn param_slots(alloc: Global, names: &SlotNames, params: &[Param]) -> Result<Slots, AllocError>
    requires { HasAll (names_tree names.now.names.items) (param_names (params_tree params.now)) }
    ensures { IfOk result (λ v. AreSlots (names_tree names.now.names.items) v.items (param_names (params_tree params.now))) }
{
    let mut found = Vec::new(alloc);
    for param in params {
        found.push(names.slot(&param.name))?;
    }
    Ok(found)
}

/// With what a function's body is lowered.
fn scope_of<'a, 'b>(
    alloc: Global,
    functions: &'a FunctionNumbers<'b>,
    func: &Func,
) -> Result<Scope<'a, 'b>, AllocError>
    requires { length (slot_names (func_tree func.now)) ≤ most_slots }
    ensures { IfOk result (λ s. (functions_of s ≡ functions_in functions.now) × (names_of_scope s ≡ slot_names (func_tree func.now))) }
{
    let names = SlotNames::of(slot_names(alloc, func)?);
    Ok(Scope { functions, names })
}

/// A function, with its nodes behind the others.
fn lower_function(
    alloc: Global,
    functions: &FunctionNumbers,
    func: &Func,
    nodes: Vec<Node>,
) -> Result<(Vec<Node>, FuncCode), AllocError>
    requires named { HasFunc (functions_in functions.now) (func_tree func.now) }
    requires room { length (nodes_shown nodes.items) + body_size (func_tree func.now).body ≤ most_nodes }
    ensures count { IfOk result (λ r.
        length (nodes_shown r.0.items) ≡ length (nodes_shown nodes.items) + body_size (func_tree func.now).body) }
    ensures made { IfOk result (λ r. Grown (nodes_shown nodes.items) (nodes_shown r.0.items)
        × IsFunc (nodes_shown r.0.items) (functions_in functions.now) (func_tree func.now) (func_shown r.1)) }
{
    let scope = scope_of(alloc, functions, func)?;
    let params = param_slots(alloc, &scope.names, &func.params)?;
    let ret = lower_return(alloc, &scope.names, &func.ret)?;
    let (nodes, body) = lower_list(alloc, &scope, nodes, &func.body)?;
    let slots = scope.names.count();
    let code = FuncCode {
        slots,
        params,
        body,
        ret,
    };
    Ok((nodes, code))
}

/// All functions.
pub(crate) fn lower_functions(
    alloc: Global,
    functions: &FunctionNumbers,
) -> Result<(Vec<Node>, Vec<FuncCode>), AllocError>
    requires { CanBeLowered (functions_in functions.now) (funcs_tree functions.now.funcs.now) }
    ensures count { IfOk result (λ r. length (nodes_shown r.0.items) ≡ functions_size (funcs_tree functions.now.funcs.now)) }
    ensures made { IfOk result (λ r. AreFuncs (nodes_shown r.0.items) (functions_in functions.now) (funcs_tree functions.now.funcs.now)
        (funcs_shown r.1.items)) }
{
    let mut nodes = Vec::new(alloc);
    let mut codes = Vec::new(alloc);
    for func in functions.funcs {
        let (more, code) = lower_function(alloc, functions, func, nodes)?;
        nodes = more;
        codes.push(code)?;
    }
    Ok((nodes, codes))
}
