//! Functions.

ghost use Rattle.std.specs.Prelude.{◌≡◌, ◌++◌, IfOk, map, codes, []};
ghost use Rattle.std.specs.List.{flat_map};
ghost use Rattle.par_tree.specs.View.{name_tree, params_tree, body_tree, ret_value_tree, ret_tree, func_tree};
ghost use Rattle.canonical_text.specs.Canonical.{◌⊕◌, with_commas, param_text, ret_value_text, ret_text, braces, line_end, body_text, func_text};

use crate::expressions::print_expression;
use crate::lists::print_params;
use crate::statements::print_body;
use par_tree::{Func, Name, Param, Ret, RetValue};
use std::alloc::{AllocError, Global};

/// The margin of a function's statements.
const MARGIN: &[u8] = b"  ";

/// What a `return` gives back.
fn print_ret_value(alloc: Global, value: &RetValue, out: &mut Vec<u8>) -> Result<(), AllocError>
    ensures { IfOk result (λ _. out.new.items ≡ out.old.items ++ ret_value_text (ret_value_tree value.now)) }
{
    match value {
        RetValue::Int(value) => print_expression(alloc, value, out),
        RetValue::Own(block) => {
            out.extend_from_slice(b"own ")?;
            out.extend_from_slice(&block.bytes)
        }
    }
}

/// The line of a `return`, where there is one.
fn print_ret(alloc: Global, ret: &Option<Ret>, out: &mut Vec<u8>) -> Result<(), AllocError>
    ensures { IfOk result (λ _. out.new.items ≡ out.old.items ++ ret_text (codes "  ") (ret_tree ret.now)) }
{
    let Some(ret) = ret else {
        return Ok(());
    };
    out.extend_from_slice(MARGIN)?;
    out.extend_from_slice(b"return ")?;
    print_ret_value(alloc, &ret.value, out)?;
    out.extend_from_slice(b";\n")
}

/// `fn name(params) `
fn print_header(name: &Name, takes: &[Param], out: &mut Vec<u8>) -> Result<(), AllocError>
    ensures { IfOk result (λ _. out.new.items ≡ out.old.items ++ (codes "fn " ⊕ name_tree name.now ⊕ codes "(" ⊕ with_commas (map param_text (params_tree takes.now)) ⊕ codes ") ")) }
{
    out.extend_from_slice(b"fn ")?;
    out.extend_from_slice(&name.bytes)?;
    out.extend_from_slice(b"(")?;
    print_params(takes, out)?;
    out.extend_from_slice(b") ")
}

/// The statements of a function and its `return`, between braces.
fn print_block(alloc: Global, func: &Func, out: &mut Vec<u8>) -> Result<(), AllocError>
    ensures { IfOk result (λ _. out.new.items ≡ out.old.items ++ (braces [] (body_text (codes "  ") (body_tree func.now.body.items) ⊕ ret_text (codes "  ") (ret_tree func.now.ret)) ⊕ line_end)) }
{
    out.extend_from_slice(b"{\n")?;
    print_body(alloc, MARGIN, &func.body, out)?;
    print_ret(alloc, &func.ret, out)?;
    out.extend_from_slice(b"}\n")
}

/// A function.
fn print_func(alloc: Global, func: &Func, out: &mut Vec<u8>) -> Result<(), AllocError>
    ensures { IfOk result (λ _. out.new.items ≡ out.old.items ++ func_text (func_tree func.now)) }
{
    print_header(&func.name, &func.params, out)?;
    print_block(alloc, func, out)
}

/// Functions, one behind the other.
pub(crate) fn print_funcs(alloc: Global, all: &[Func], out: &mut Vec<u8>) -> Result<(), AllocError>
    ensures { IfOk result (λ _. out.new.items ≡ out.old.items ++ flat_map func_text (map func_tree all.now)) }
{
    'funcs: for next in all {
        print_func(alloc, next, out)?;
    }
    Ok(())
}
