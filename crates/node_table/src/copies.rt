//! Copies of what a node table has.

ghost use Rattle.std.specs.Prelude.{◌≡◌, IfOk};
ghost use Rattle.node_table.specs.Shown.{expr_shown, links_shown, arg_shown, args_shown, ret_value_shown, ret_shown, kind_shown, nodes_shown, func_shown, funcs_shown};

use crate::code_arg::{CodeArg, CodeArgs};
use crate::code_expr::CodeExpr;
use crate::code_link::{CodeLink, CodeRest};
use crate::code_ret::CodeRet;
use crate::code_ret_value::CodeRetValue;
use crate::func_code::FuncCode;
use crate::node::{Node, NodeList, Slots};
use crate::node_kind::NodeKind;
use std::alloc::{AllocError, Global};

/// An expression again.
#[cycle(copy_expression)]
fn copy_expression(alloc: Global, expr: &CodeExpr) -> Result<CodeExpr, AllocError>
    ensures { IfOk result (λ c. expr_shown c ≡ expr_shown expr.now) }
{
    match expr {
        CodeExpr::Num(number) => Ok(CodeExpr::Num(*number)),
        CodeExpr::Var(slot) => Ok(CodeExpr::Var(*slot)),
        CodeExpr::Get(block, index) => Ok(CodeExpr::Get(*block, copy_boxed(alloc, index)?)),
        CodeExpr::Len(block) => Ok(CodeExpr::Len(*block)),
        CodeExpr::Neg(operand) => Ok(CodeExpr::Neg(copy_boxed(alloc, operand)?)),
        CodeExpr::Chain { first, rest } => {
            let first = copy_boxed(alloc, first)?;
            let rest = copy_links(alloc, rest)?;
            Ok(CodeExpr::Chain { first, rest })
        }
        CodeExpr::Cmp { op, left, right } => {
            let left = copy_boxed(alloc, left)?;
            let right = copy_boxed(alloc, right)?;
            Ok(CodeExpr::Cmp {
                op: *op,
                left,
                right,
            })
        }
    }
}

/// An expression again, in a box, which is let go by one call where the next part cannot be copied.
#[cycle(copy_expression)]
fn copy_boxed(alloc: Global, expr: &CodeExpr) -> Result<Box<CodeExpr>, AllocError>
    ensures { IfOk result (λ b. expr_shown b.value ≡ expr_shown expr.now) }
{
    let copy = copy_expression(alloc, expr)?;
    Ok(Box::new(alloc, copy)?)
}

/// The links of a chain again.
#[cycle(copy_expression)]
fn copy_links(alloc: Global, rest: &[CodeLink]) -> Result<CodeRest, AllocError>
    ensures { IfOk result (λ v. links_shown v.items ≡ links_shown rest.now) }
{
    let mut found = Vec::new(alloc);
    for link in rest {
        let operand = copy_expression(alloc, &link.operand)?;
        found.push(CodeLink {
            op: link.op,
            operand,
        })?;
    }
    Ok(found)
}

/// An argument again.
fn copy_argument(alloc: Global, arg: &CodeArg) -> Result<CodeArg, AllocError>
    ensures { IfOk result (λ c. arg_shown c ≡ arg_shown arg.now) }
{
    match arg {
        CodeArg::Value(expr) => Ok(CodeArg::Value(copy_expression(alloc, expr)?)),
        CodeArg::Lend(block) => Ok(CodeArg::Lend(*block)),
        CodeArg::Give(block) => Ok(CodeArg::Give(*block)),
    }
}

/// The arguments of a call again.
fn copy_arguments(alloc: Global, args: &[CodeArg]) -> Result<CodeArgs, AllocError>
    ensures { IfOk result (λ v. args_shown v.items ≡ args_shown args.now) }
{
    let mut found = Vec::new(alloc);
    for arg in args {
        found.push(copy_argument(alloc, arg)?)?;
    }
    Ok(found)
}

/// Slots again.
fn copy_slots(alloc: Global, slots: &Slots) -> Result<Slots, AllocError>
    ensures { IfOk result (λ v. v.items ≡ slots.now.items) }
{
    slots.to_vec(alloc)
}

/// Numbers of nodes again.
fn copy_numbers(alloc: Global, numbers: &NodeList) -> Result<NodeList, AllocError>
    ensures { IfOk result (λ v. v.items ≡ numbers.now.items) }
{
    numbers.to_vec(alloc)
}

/// What a statement does again. An expression is copied last, so that no exit lets one go: that takes a step for each of its forms.
fn copy_kind(alloc: Global, kind: &NodeKind) -> Result<NodeKind, AllocError>
    ensures { IfOk result (λ c. kind_shown c ≡ kind_shown kind.now) }
{
    Ok(match kind {
        NodeKind::Let { name, value } => NodeKind::Let {
            name: *name,
            value: copy_expression(alloc, value)?,
        },
        NodeKind::Assign { name, value } => NodeKind::Assign {
            name: *name,
            value: copy_expression(alloc, value)?,
        },
        NodeKind::Put {
            block,
            index,
            value,
        } => NodeKind::Put {
            block: *block,
            index: copy_expression(alloc, index)?,
            value: copy_expression(alloc, value)?,
        },
        NodeKind::Alloc { name, size } => NodeKind::Alloc {
            name: *name,
            size: copy_expression(alloc, size)?,
        },
        NodeKind::Free { name } => NodeKind::Free { name: *name },
        NodeKind::If { cond, then, other } => NodeKind::If {
            then: copy_numbers(alloc, then)?,
            other: copy_numbers(alloc, other)?,
            cond: copy_expression(alloc, cond)?,
        },
        NodeKind::While { cond, body } => NodeKind::While {
            body: copy_numbers(alloc, body)?,
            cond: copy_expression(alloc, cond)?,
        },
        NodeKind::Call { target, func, args } => NodeKind::Call {
            target: *target,
            func: *func,
            args: copy_arguments(alloc, args)?,
        },
        NodeKind::Print { value } => NodeKind::Print {
            value: copy_expression(alloc, value)?,
        },
        NodeKind::Both {
            left,
            right,
            left_blocks,
            left_assigned,
        } => NodeKind::Both {
            left: copy_numbers(alloc, left)?,
            right: copy_numbers(alloc, right)?,
            left_blocks: copy_slots(alloc, left_blocks)?,
            left_assigned: copy_slots(alloc, left_assigned)?,
        },
        NodeKind::Split {
            block,
            at,
            left,
            right,
            body,
        } => NodeKind::Split {
            block: *block,
            left: *left,
            right: *right,
            body: copy_numbers(alloc, body)?,
            at: copy_expression(alloc, at)?,
        },
    })
}

/// The nodes of a table again.
pub(crate) fn copy_nodes(alloc: Global, nodes: &[Node]) -> Result<Vec<Node>, AllocError>
    ensures { IfOk result (λ v. nodes_shown v.items ≡ nodes_shown nodes.now) }
{
    let mut found = Vec::new(alloc);
    for node in nodes {
        let kind = copy_kind(alloc, &node.kind)?;
        found.push(Node {
            line: node.line,
            kind,
        })?;
    }
    Ok(found)
}

/// What a `return` gives back again.
fn copy_returned_value(alloc: Global, value: &CodeRetValue) -> Result<CodeRetValue, AllocError>
    ensures { IfOk result (λ c. ret_value_shown c ≡ ret_value_shown value.now) }
{
    match value {
        CodeRetValue::Int(expr) => Ok(CodeRetValue::Int(copy_expression(alloc, expr)?)),
        CodeRetValue::Own(block) => Ok(CodeRetValue::Own(*block)),
    }
}

/// A `return` again.
fn copy_return(alloc: Global, ret: &Option<CodeRet>) -> Result<Option<CodeRet>, AllocError>
    ensures { IfOk result (λ c. ret_shown c ≡ ret_shown ret.now) }
{
    match ret {
        None => Ok(None),
        Some(ret) => {
            let value = copy_returned_value(alloc, &ret.value)?;
            Ok(Some(CodeRet {
                line: ret.line,
                value,
            }))
        }
    }
}

/// A function again.
fn copy_function(alloc: Global, func: &FuncCode) -> Result<FuncCode, AllocError>
    ensures { IfOk result (λ c. func_shown c ≡ func_shown func.now) }
{
    Ok(FuncCode {
        slots: func.slots,
        params: copy_slots(alloc, &func.params)?,
        body: copy_numbers(alloc, &func.body)?,
        ret: copy_return(alloc, &func.ret)?,
    })
}

/// The functions of a table again.
pub(crate) fn copy_functions(alloc: Global, funcs: &[FuncCode]) -> Result<Vec<FuncCode>, AllocError>
    ensures { IfOk result (λ v. funcs_shown v.items ≡ funcs_shown funcs.now) }
{
    let mut found = Vec::new(alloc);
    for func in funcs {
        found.push(copy_function(alloc, func)?)?;
    }
    Ok(found)
}
