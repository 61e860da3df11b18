//! Statements.

ghost use Rattle.std.specs.Prelude.{◌≡◌, ◌++◌, IfOk, codes, []};
ghost use Rattle.par_tree.specs.View.{name_tree, expr_tree, target_tree, args_tree, stmt_tree, body_tree};
ghost use Rattle.par_tree.specs.Tree.{put_stmt as store_tree, call_stmt as call_tree};
ghost use Rattle.canonical_text.specs.Canonical.{◌⊕◌, expr_text, stmt_text, body_text, else_text, braces, deeper};

use crate::expressions::print_expression;
use crate::lists::print_args;
use crate::words::{deeper, print_target};
use par_tree::{Arg, Expr, Name, Stmt, StmtKind, Target};
use std::alloc::{AllocError, Global};

/// A word, an expression and a semicolon.
fn ended(alloc: Global, word: &[u8], value: &Expr, out: &mut Vec<u8>) -> Result<(), AllocError>
    ensures { IfOk result (λ _. out.new.items ≡ out.old.items ++ (word.now ⊕ expr_text (expr_tree value.now) ⊕ codes ";")) }
{
    out.extend_from_slice(word)?;
    print_expression(alloc, value, out)?;
    out.extend_from_slice(b";")
}

/// A word, `x = e` and a semicolon.
fn named_value(
    alloc: Global,
    word: &[u8],
    name: &Name,
    value: &Expr,
    out: &mut Vec<u8>,
) -> Result<(), AllocError>
    ensures { IfOk result (λ _. out.new.items ≡ out.old.items ++ (word.now ⊕ name_tree name.now ⊕ codes " = " ⊕ expr_text (expr_tree value.now) ⊕ codes ";")) }
{
    out.extend_from_slice(word)?;
    out.extend_from_slice(&name.bytes)?;
    ended(alloc, b" = ", value, out)
}

/// `b[i] = e;`
fn print_put(
    alloc: Global,
    block: &Name,
    index: &Expr,
    value: &Expr,
    out: &mut Vec<u8>,
) -> Result<(), AllocError>
    ensures { IfOk result (λ _. out.new.items ≡ out.old.items ++ stmt_text []
        (store_tree (name_tree block.now) (expr_tree index.now) (expr_tree value.now))) }
{
    out.extend_from_slice(&block.bytes)?;
    out.extend_from_slice(b"[")?;
    print_expression(alloc, index, out)?;
    ended(alloc, b"] = ", value, out)
}

/// `free b;`
fn print_free(block: &Name, out: &mut Vec<u8>) -> Result<(), AllocError>
    ensures { IfOk result (λ _. out.new.items ≡ out.old.items ++ (codes "free " ⊕ name_tree block.now ⊕ codes ";")) }
{
    out.extend_from_slice(b"free ")?;
    out.extend_from_slice(&block.bytes)?;
    out.extend_from_slice(b";")
}

/// `call target = f(args);`
fn print_call(
    alloc: Global,
    to: &Target,
    func: &Name,
    values: &[Arg],
    out: &mut Vec<u8>,
) -> Result<(), AllocError>
    ensures { IfOk result (λ _. out.new.items ≡ out.old.items ++ stmt_text []
        (call_tree (target_tree to.now) (name_tree func.now) (args_tree values.now))) }
{
    out.extend_from_slice(b"call ")?;
    print_target(to, out)?;
    out.extend_from_slice(&func.bytes)?;
    out.extend_from_slice(b"(")?;
    print_args(alloc, values, out)?;
    out.extend_from_slice(b");")
}

/// A word, an expression and a space.
fn tested(alloc: Global, word: &[u8], cond: &Expr, out: &mut Vec<u8>) -> Result<(), AllocError>
    ensures { IfOk result (λ _. out.new.items ≡ out.old.items ++ (word.now ⊕ expr_text (expr_tree cond.now) ⊕ codes " ")) }
{
    out.extend_from_slice(word)?;
    print_expression(alloc, cond, out)?;
    out.extend_from_slice(b" ")
}

/// `split b at e into l, r `
fn parted(
    alloc: Global,
    block: &Name,
    at: &Expr,
    left: &Name,
    right: &Name,
    out: &mut Vec<u8>,
) -> Result<(), AllocError>
    ensures { IfOk result (λ _. out.new.items ≡ out.old.items ++ (codes "split " ⊕ name_tree block.now ⊕ codes " at " ⊕ expr_text (expr_tree at.now) ⊕ codes " into " ⊕ name_tree left.now ⊕ codes ", " ⊕ name_tree right.now ⊕ codes " ")) }
{
    out.extend_from_slice(b"split ")?;
    out.extend_from_slice(&block.bytes)?;
    tested(alloc, b" at ", at, out)?;
    out.extend_from_slice(b"into ")?;
    names(left, right, out)
}

/// `l, r `
fn names(left: &Name, right: &Name, out: &mut Vec<u8>) -> Result<(), AllocError>
    ensures { IfOk result (λ _. out.new.items ≡ out.old.items ++ (name_tree left.now ⊕ codes ", " ⊕ name_tree right.now ⊕ codes " ")) }
{
    out.extend_from_slice(&left.bytes)?;
    out.extend_from_slice(b", ")?;
    out.extend_from_slice(&right.bytes)?;
    out.extend_from_slice(b" ")
}

/// Statements between braces.
#[cycle(print_statement)]
fn print_braces(
    alloc: Global,
    margin: &[u8],
    stmts: &[Stmt],
    out: &mut Vec<u8>,
) -> Result<(), AllocError>
    ensures { IfOk result (λ _. out.new.items ≡ out.old.items ++ braces margin.now (body_text (deeper margin.now) (body_tree stmts.now))) }
{
    let inner = deeper(alloc, margin)?;
    out.extend_from_slice(b"{\n")?;
    print_body(alloc, &inner, stmts, out)?;
    out.extend_from_slice(margin)?;
    out.extend_from_slice(b"}")
}

/// The second arm of an `if`, where it is not empty.
#[cycle(print_statement)]
fn print_else(
    alloc: Global,
    margin: &[u8],
    stmts: &[Stmt],
    out: &mut Vec<u8>,
) -> Result<(), AllocError>
    ensures { IfOk result (λ _. out.new.items ≡ out.old.items ++ else_text margin.now (body_tree stmts.now)
        (body_text (deeper margin.now) (body_tree stmts.now))) }
{
    if stmts.is_empty() {
        return Ok(());
    }
    out.extend_from_slice(b" else ")?;
    print_braces(alloc, margin, stmts, out)
}

/// A statement behind its margin, up to the end of its last line.
#[cycle(print_statement)]
fn print_statement(
    alloc: Global,
    margin: &[u8],
    kind: &StmtKind,
    out: &mut Vec<u8>,
) -> Result<(), AllocError>
    ensures { IfOk result (λ _. out.new.items ≡ out.old.items ++ stmt_text margin.now (stmt_tree kind.now)) }
{
    match kind {
        StmtKind::Let { name, value } => named_value(alloc, b"let ", name, value, out),
        StmtKind::Assign { name, value } => named_value(alloc, b"", name, value, out),
        StmtKind::Put {
            block,
            index,
            value,
        } => print_put(alloc, block, index, value, out),
        StmtKind::Alloc { name, size } => named_value(alloc, b"alloc ", name, size, out),
        StmtKind::Free { name } => print_free(name, out),
        StmtKind::If { cond, then, other } => {
            tested(alloc, b"if ", cond, out)?;
            print_braces(alloc, margin, then, out)?;
            print_else(alloc, margin, other, out)
        }
        StmtKind::While { cond, body } => {
            tested(alloc, b"while ", cond, out)?;
            print_braces(alloc, margin, body, out)
        }
        StmtKind::Call { target, func, args } => print_call(alloc, target, func, args, out),
        StmtKind::Print { value } => ended(alloc, b"print ", value, out),
        StmtKind::Par { left, right } => {
            out.extend_from_slice(b"par ")?;
            print_braces(alloc, margin, left, out)?;
            out.extend_from_slice(b" and ")?;
            print_braces(alloc, margin, right, out)
        }
        StmtKind::Split {
            block,
            at,
            left,
            right,
            body,
        } => {
            parted(alloc, block, at, left, right, out)?;
            print_braces(alloc, margin, body, out)
        }
    }
}

/// Statements, each on lines of its own behind the margin.
#[cycle(print_statement)]
pub(crate) fn print_body(
    alloc: Global,
    margin: &[u8],
    stmts: &[Stmt],
    out: &mut Vec<u8>,
) -> Result<(), AllocError>
    ensures { IfOk result (λ _. out.new.items ≡ out.old.items ++ body_text margin.now (body_tree stmts.now)) }
{
    'statements: for stmt in stmts {
        out.extend_from_slice(margin)?;
        print_statement(alloc, margin, &stmt.kind, out)?;
        out.extend_from_slice(b"\n")?;
    }
    Ok(())
}
