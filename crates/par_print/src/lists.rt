//! Lists with commas.

ghost use Rattle.std.specs.Prelude.{◌≡◌, ◌++◌, IfOk, map};
ghost use Rattle.std.specs.List.{flat_map};
ghost use Rattle.par_tree.specs.View.{arg_tree, args_tree, params_tree};
ghost use Rattle.canonical_text.specs.Canonical.{arg_text, param_text, behind_comma, with_commas};

use crate::expressions::print_expression;
use crate::words::print_param;
use par_tree::{Arg, Param};
use std::alloc::{AllocError, Global};

/// An argument.
fn print_arg(alloc: Global, arg: &Arg, out: &mut Vec<u8>) -> Result<(), AllocError>
    ensures { IfOk result (λ _. out.new.items ≡ out.old.items ++ arg_text (arg_tree arg.now)) }
{
    match arg {
        Arg::Value(value) => print_expression(alloc, value, out),
        Arg::Lend(block) => {
            out.extend_from_slice(b"use ")?;
            out.extend_from_slice(&block.bytes)
        }
        Arg::Give(block) => {
            out.extend_from_slice(b"own ")?;
            out.extend_from_slice(&block.bytes)
        }
    }
}

/// Arguments behind the first one.
fn print_more_args(alloc: Global, args: &[Arg], out: &mut Vec<u8>) -> Result<(), AllocError>
    ensures { IfOk result (λ _. out.new.items ≡ out.old.items ++ flat_map behind_comma (map arg_text (args_tree args.now))) }
{
    'more: for next in args {
        out.extend_from_slice(b", ")?;
        print_arg(alloc, next, out)?;
    }
    Ok(())
}

/// The arguments of a call.
pub(crate) fn print_args(alloc: Global, args: &[Arg], out: &mut Vec<u8>) -> Result<(), AllocError>
    ensures { IfOk result (λ _. out.new.items ≡ out.old.items ++ with_commas (map arg_text (args_tree args.now))) }
{
    let Some((first, rest)) = args.split_first() else {
        return Ok(());
    };
    print_arg(alloc, first, out)?;
    print_more_args(alloc, rest, out)
}

/// Parameters behind the first one.
fn print_more_params(params: &[Param], out: &mut Vec<u8>) -> Result<(), AllocError>
    ensures { IfOk result (λ _. out.new.items ≡ out.old.items ++ flat_map behind_comma (map param_text (params_tree params.now))) }
{
    'params: for next in params {
        out.extend_from_slice(b", ")?;
        print_param(next, out)?;
    }
    Ok(())
}

/// The parameters of a function.
pub(crate) fn print_params(params: &[Param], out: &mut Vec<u8>) -> Result<(), AllocError>
    ensures { IfOk result (λ _. out.new.items ≡ out.old.items ++ with_commas (map param_text (params_tree params.now))) }
{
    let Some((first, rest)) = params.split_first() else {
        return Ok(());
    };
    print_param(first, out)?;
    print_more_params(rest, out)
}
