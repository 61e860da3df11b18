//! The names in statements, in the order of the text.

ghost use Rattle.std.specs.Prelude.{◌≡◌, ◌++◌, ◌∷◌, [], IfOk};
ghost use Rattle.par_tree.specs.View.{name_tree, expr_tree, links_tree, target_tree, arg_tree, args_tree, stmt_tree, body_tree};
ghost use Rattle.par_tree.specs.Names.{expr_names, links_names, target_names, arg_names, args_names, parts_names, stmt_names, body_names};
ghost use Rattle.par_names.specs.Rows.{rows_tree};
ghost use Rattle.par_names.specs.Sets.{names_behind};

use par_tree::{Arg, Body, Expr, Link, Name, Stmt, StmtKind, Target};
use std::alloc::AllocError;

/// Adds a name.
pub(crate) fn add_name<'a>(name: &'a Name, out: &mut Vec<&'a [u8]>) -> Result<(), AllocError>
    ensures { IfOk result (λ _. names_behind out.new.items ≡ names_behind out.old.items ++ name_tree name.now ∷ []) }
{
    out.push(name.bytes.as_slice())?;
    Ok(())
}

/// Adds the names in an expression.
#[cycle(add_expression)]
fn add_expression<'a>(expr: &'a Expr, out: &mut Vec<&'a [u8]>) -> Result<(), AllocError>
    ensures { IfOk result (λ _. names_behind out.new.items ≡ names_behind out.old.items ++ expr_names (expr_tree expr.now)) }
{
    match expr {
        Expr::Num(_) => Ok(()),
        Expr::Var(name) | Expr::Len(name) => add_name(name, out),
        Expr::Get(block, index) => {
            add_name(block, out)?;
            add_expression(index, out)
        }
        Expr::Neg(operand) => add_expression(operand, out),
        Expr::Chain { first, rest } => {
            add_expression(first, out)?;
            add_links(rest, out)
        }
        Expr::Cmp { left, right, .. } => {
            add_expression(left, out)?;
            add_expression(right, out)
        }
    }
}

/// Adds the names in the operands behind the first one of a chain.
#[cycle(add_expression)]
fn add_links<'a>(rest: &'a [Link], out: &mut Vec<&'a [u8]>) -> Result<(), AllocError>
    ensures { IfOk result (λ _. names_behind out.new.items ≡ names_behind out.old.items ++ links_names (links_tree rest.now)) }
{
    'links: for link in rest {
        add_expression(&link.operand, out)?;
    }
    Ok(())
}

/// Adds the name of the target of a call.
fn add_target<'a>(target: &'a Target, out: &mut Vec<&'a [u8]>) -> Result<(), AllocError>
    ensures { IfOk result (λ _. names_behind out.new.items ≡ names_behind out.old.items ++ target_names (target_tree target.now)) }
{
    match target {
        Target::Unused => Ok(()),
        Target::Int(name) | Target::Own(name) => add_name(name, out),
    }
}

/// Adds the names in an argument.
fn add_argument<'a>(arg: &'a Arg, out: &mut Vec<&'a [u8]>) -> Result<(), AllocError>
    ensures { IfOk result (λ _. names_behind out.new.items ≡ names_behind out.old.items ++ arg_names (arg_tree arg.now)) }
{
    match arg {
        Arg::Value(expr) => add_expression(expr, out),
        Arg::Lend(name) | Arg::Give(name) => add_name(name, out),
    }
}

/// Adds the names in arguments.
fn add_arguments<'a>(args: &'a [Arg], out: &mut Vec<&'a [u8]>) -> Result<(), AllocError>
    ensures { IfOk result (λ _. names_behind out.new.items ≡ names_behind out.old.items ++ args_names (args_tree args.now)) }
{
    'list: for arg in args {
        add_argument(arg, out)?;
    }
    Ok(())
}

/// Adds the names in the head of a `split`.
fn add_parts<'a>(
    block: &'a Name,
    at: &'a Expr,
    left: &'a Name,
    right: &'a Name,
    out: &mut Vec<&'a [u8]>,
) -> Result<(), AllocError>
    ensures { IfOk result (λ _. names_behind out.new.items ≡ names_behind out.old.items ++ parts_names (name_tree block.now)
        (expr_tree at.now) (name_tree left.now) (name_tree right.now)) }
{
    add_name(block, out)?;
    add_expression(at, out)?;
    add_name(left, out)?;
    add_name(right, out)
}

/// Adds a name and the names in an expression.
fn add_named<'a>(name: &'a Name, expr: &'a Expr, out: &mut Vec<&'a [u8]>) -> Result<(), AllocError>
    ensures { IfOk result (λ _. names_behind out.new.items ≡ names_behind out.old.items ++ name_tree name.now ∷ expr_names
        (expr_tree expr.now)) }
{
    add_name(name, out)?;
    add_expression(expr, out)
}

/// Adds the names in a write to a word of a block.
fn add_put<'a>(
    block: &'a Name,
    index: &'a Expr,
    value: &'a Expr,
    out: &mut Vec<&'a [u8]>,
) -> Result<(), AllocError>
    ensures { IfOk result (λ _. names_behind out.new.items ≡ names_behind out.old.items ++ name_tree block.now ∷ (expr_names
        (expr_tree index.now) ++ expr_names (expr_tree value.now))) }
{
    add_named(block, index, out)?;
    add_expression(value, out)
}

/// Adds the names in a call.
fn add_call<'a>(
    target: &'a Target,
    args: &'a [Arg],
    out: &mut Vec<&'a [u8]>,
) -> Result<(), AllocError>
    ensures { IfOk result (λ _. names_behind out.new.items ≡ names_behind out.old.items ++ (target_names (target_tree target.now) ++ args_names
        (args_tree args.now))) }
{
    add_target(target, out)?;
    add_arguments(args, out)
}

/// Adds the names in a statement.
#[cycle(add_statement)]
fn add_statement<'a>(kind: &'a StmtKind, out: &mut Vec<&'a [u8]>) -> Result<(), AllocError>
    ensures { IfOk result (λ _. names_behind out.new.items ≡ names_behind out.old.items ++ stmt_names (stmt_tree kind.now)) }
{
    match kind {
        StmtKind::Let { name, value: expr }
        | StmtKind::Assign { name, value: expr }
        | StmtKind::Alloc { name, size: expr } => add_named(name, expr, out),
        StmtKind::Put {
            block,
            index,
            value,
        } => add_put(block, index, value, out),
        StmtKind::Free { name } => add_name(name, out),
        StmtKind::If { cond, then, other } => {
            add_expression(cond, out)?;
            add_owned(then, out)?;
            add_owned(other, out)
        }
        StmtKind::While { cond, body } => {
            add_expression(cond, out)?;
            add_owned(body, out)
        }
        StmtKind::Call { target, args, .. } => add_call(target, args, out),
        StmtKind::Print { value } => add_expression(value, out),
        StmtKind::Par { left, right } => {
            add_owned(left, out)?;
            add_owned(right, out)
        }
        StmtKind::Split {
            block,
            at,
            left,
            right,
            body,
        } => {
            add_parts(block, at, left, right, out)?;
            add_owned(body, out)
        }
    }
}

/// Adds the names in the statements that a statement owns.
#[cycle(add_statement)]
fn add_owned<'a>(body: &'a Body, out: &mut Vec<&'a [u8]>) -> Result<(), AllocError>
    ensures { IfOk result (λ _. names_behind out.new.items ≡ names_behind out.old.items ++ body_names (rows_tree body.now)) }
{
    add_names(body, out)
}

/// Adds the names in a list of statements.
#[cycle(add_statement)]
pub(crate) fn add_names<'a>(body: &'a [Stmt], out: &mut Vec<&'a [u8]>) -> Result<(), AllocError>
    ensures { IfOk result (λ _. names_behind out.new.items ≡ names_behind out.old.items ++ body_names (body_tree body.now)) }
{
    'body: for stmt in body {
        add_statement(&stmt.kind, out)?;
    }
    Ok(())
}
