//! The integers to which statements assign, in the order of the text.

ghost use Rattle.std.specs.Prelude.{◌≡◌, ◌++◌, IfOk};
ghost use Rattle.par_tree.specs.View.{target_tree, stmt_tree, body_tree};
ghost use Rattle.par_tree.specs.Names.{target_assigned, stmt_assigned, body_assigned};
ghost use Rattle.par_names.specs.Rows.{rows_tree};
ghost use Rattle.par_names.specs.Sets.{names_behind};

use crate::mentioned::add_name;
use par_tree::{Body, Stmt, StmtKind, Target};
use std::alloc::AllocError;

/// Adds the integer to which the answer of a call is assigned.
fn add_target<'a>(target: &'a Target, out: &mut Vec<&'a [u8]>) -> Result<(), AllocError>
    ensures { IfOk result (λ _. names_behind out.new.items ≡ names_behind out.old.items ++ target_assigned (target_tree target.now)) }
{
    match target {
        Target::Unused | Target::Own(_) => Ok(()),
        Target::Int(name) => add_name(name, out),
    }
}

/// Adds the integers to which a statement assigns.
#[cycle(add_statement)]
fn add_statement<'a>(kind: &'a StmtKind, out: &mut Vec<&'a [u8]>) -> Result<(), AllocError>
    ensures { IfOk result (λ _. names_behind out.new.items ≡ names_behind out.old.items ++ stmt_assigned (stmt_tree kind.now)) }
{
    match kind {
        StmtKind::Let { .. }
        | StmtKind::Put { .. }
        | StmtKind::Alloc { .. }
        | StmtKind::Free { .. }
        | StmtKind::Print { .. } => Ok(()),
        StmtKind::Assign { name, .. } => add_name(name, out),
        StmtKind::If { then, other, .. } => {
            add_owned(then, out)?;
            add_owned(other, out)
        }
        StmtKind::Call { target, .. } => add_target(target, out),
        StmtKind::Par { left, right } => {
            add_owned(left, out)?;
            add_owned(right, out)
        }
        StmtKind::While { body, .. } | StmtKind::Split { body, .. } => add_owned(body, out),
    }
}

/// Adds the integers to which the statements that a statement owns assign.
#[cycle(add_statement)]
fn add_owned<'a>(body: &'a Body, out: &mut Vec<&'a [u8]>) -> Result<(), AllocError>
    ensures { IfOk result (λ _. names_behind out.new.items ≡ names_behind out.old.items ++ body_assigned (rows_tree body.now)) }
{
    add_assigned(body, out)
}

/// Adds the integers to which a list of statements assigns.
#[cycle(add_statement)]
pub(crate) fn add_assigned<'a>(body: &'a [Stmt], out: &mut Vec<&'a [u8]>) -> Result<(), AllocError>
    ensures { IfOk result (λ _. names_behind out.new.items ≡ names_behind out.old.items ++ body_assigned (body_tree body.now)) }
{
    'body: for stmt in body {
        add_statement(&stmt.kind, out)?;
    }
    Ok(())
}
