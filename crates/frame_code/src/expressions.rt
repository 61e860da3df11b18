//! Expressions, arguments, targets and `return` over slots.

ghost use Rattle.std.specs.Prelude.{IfOk};
ghost use Rattle.par_tree.specs.View.{expr_tree, links_tree, target_tree, arg_tree, args_tree, ret_tree, ret_value_tree};
ghost use Rattle.node_table.specs.Reading.{IsExpr, AreLinks, IsTarget, IsArg, AreArgs, IsReturnValue, IsReturn};
ghost use Rattle.node_table.specs.Shown.{expr_shown, links_shown, target_shown, arg_shown, args_shown, ret_value_shown, ret_shown};
ghost use Rattle.frame_code.specs.Scopes.{names_tree};
ghost use Rattle.frame_code.specs.Slotted.{HasExpr, HasLinks, HasTarget, HasArg, HasArgs, HasValue, HasReturn};

use crate::slot_names::SlotNames;
use node_table::{
    CodeArg, CodeArgs, CodeExpr, CodeLink, CodeRest, CodeRet, CodeRetValue, CodeTarget,
};
use par_tree::{Arg, Expr, Link, Ret, RetValue, Target};
use std::alloc::{AllocError, Global};

/// An expression.
#[cycle(lower_expression)]
pub(crate) fn lower_expression(
    alloc: Global,
    names: &SlotNames,
    expr: &Expr,
) -> Result<CodeExpr, AllocError>
    requires { HasExpr (names_tree names.now.names.items) (expr_tree expr.now) }
    ensures { IfOk result (λ c. IsExpr (names_tree names.now.names.items) (expr_shown c) (expr_tree expr.now)) }
{
    match expr {
        Expr::Num(number) => Ok(CodeExpr::Num(*number)),
        Expr::Var(name) => Ok(CodeExpr::Var(names.slot(name))),
        Expr::Get(name, index) => {
            let index = lower_expression(alloc, names, index)?;
            Ok(CodeExpr::Get(names.slot(name), Box::new(alloc, index)?))
        }
        Expr::Len(name) => Ok(CodeExpr::Len(names.slot(name))),
        Expr::Neg(operand) => {
            let operand = lower_expression(alloc, names, operand)?;
            Ok(CodeExpr::Neg(Box::new(alloc, operand)?))
        }
        Expr::Chain { first, rest } => {
            let first = lower_expression(alloc, names, first)?;
            let first = Box::new(alloc, first)?;
            let rest = lower_links(alloc, names, rest)?;
            Ok(CodeExpr::Chain { first, rest })
        }
        Expr::Cmp { op, left, right } => {
            let left = lower_expression(alloc, names, left)?;
            let left = Box::new(alloc, left)?;
            let right = lower_expression(alloc, names, right)?;
            let right = Box::new(alloc, right)?;
            Ok(CodeExpr::Cmp {
                op: *op,
                left,
                right,
            })
        }
    }
}

/// The links of a chain.
#[cycle(lower_expression)]
fn lower_links(alloc: Global, names: &SlotNames, rest: &[Link]) -> Result<CodeRest, AllocError>
    requires { HasLinks (names_tree names.now.names.items) (links_tree rest.now) }
    ensures { IfOk result (λ v. AreLinks (names_tree names.now.names.items) (links_shown v.items) (links_tree rest.now)) }
{
    let mut found = Vec::new(alloc);
    for link in rest {
        let operand = lower_expression(alloc, names, &link.operand)?;
        found.push(CodeLink {
            op: link.op,
            operand,
        })?;
    }
    Ok(found)
}

/// The target of a call.
pub(crate) fn lower_target(names: &SlotNames, target: &Target) -> CodeTarget
    requires { HasTarget (names_tree names.now.names.items) (target_tree target.now) }
    ensures { IsTarget (names_tree names.now.names.items) (target_shown result) (target_tree target.now) }
{
    match target {
        Target::Unused => CodeTarget::Unused,
        Target::Int(name) => CodeTarget::Int(names.slot(name)),
        Target::Own(name) => CodeTarget::Own(names.slot(name)),
    }
}

/// An argument of a call.
fn lower_argument(alloc: Global, names: &SlotNames, arg: &Arg) -> Result<CodeArg, AllocError>
    requires { HasArg (names_tree names.now.names.items) (arg_tree arg.now) }
    ensures { IfOk result (λ c. IsArg (names_tree names.now.names.items) (arg_shown c) (arg_tree arg.now)) }
{
    match arg {
        Arg::Value(expr) => Ok(CodeArg::Value(lower_expression(alloc, names, expr)?)),
        Arg::Lend(name) => Ok(CodeArg::Lend(names.slot(name))),
        Arg::Give(name) => Ok(CodeArg::Give(names.slot(name))),
    }
}

/// The arguments of a call.
pub(crate) fn lower_arguments(
    alloc: Global,
    names: &SlotNames,
    args: &[Arg],
) -> Result<CodeArgs, AllocError>
    requires { HasArgs (names_tree names.now.names.items) (args_tree args.now) }
    ensures { IfOk result (λ v. AreArgs (names_tree names.now.names.items) (args_shown v.items) (args_tree args.now)) }
{
    let mut found = Vec::new(alloc);
    for arg in args {
        found.push(lower_argument(alloc, names, arg)?)?;
    }
    Ok(found)
}

/// What a `return` gives back.
fn lower_returned_value(
    alloc: Global,
    names: &SlotNames,
    value: &RetValue,
) -> Result<CodeRetValue, AllocError>
    requires { HasValue (names_tree names.now.names.items) (ret_value_tree value.now) }
    ensures { IfOk result (λ c. IsReturnValue (names_tree names.now.names.items) (ret_value_shown c) (ret_value_tree value.now)) }
{
    match value {
        RetValue::Int(expr) => Ok(CodeRetValue::Int(lower_expression(alloc, names, expr)?)),
        RetValue::Own(name) => Ok(CodeRetValue::Own(names.slot(name))),
    }
}

/// A `return`.
pub(crate) fn lower_return(
    alloc: Global,
    names: &SlotNames,
    ret: &Option<Ret>,
) -> Result<Option<CodeRet>, AllocError>
    requires { HasReturn (names_tree names.now.names.items) (ret_tree ret.now) }
    ensures { IfOk result (λ c. IsReturn (names_tree names.now.names.items) (ret_shown c) (ret_tree ret.now)) }
{
    match ret {
        None => Ok(None),
        Some(ret) => {
            let value = lower_returned_value(alloc, names, &ret.value)?;
            Ok(Some(CodeRet {
                line: ret.line,
                value,
            }))
        }
    }
}
