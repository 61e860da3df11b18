//! The names that a function declares, each once.

ghost use Rattle.std.specs.Prelude.{◌≡◌, IfOk};
ghost use Rattle.par_tree.specs.View.{name_tree, target_tree, stmt_tree, body_tree, params_tree, func_tree};
ghost use Rattle.par_names.specs.Rows.{rows_tree};
ghost use Rattle.par_tree.specs.Names.{is_among, declared_by_target, declared_in_stmt, declared_in_body, param_names};
ghost use Rattle.node_table.specs.Names.{with_name, with_names, slot_names};
ghost use Rattle.frame_code.specs.Scopes.{names_tree};

use par_tree::{Body, Func, Name, Param, Stmt, StmtKind, Target};
use std::alloc::{AllocError, Global};

/// A name of its own.
fn copy_of(alloc: Global, name: &[u8]) -> Result<Name, AllocError>
    ensures { IfOk result (λ n. name_tree n ≡ name.now) }
{
    Ok(Name {
        bytes: name.to_vec(alloc)?,
    })
}

/// Whether a name is among others.
fn is_among(name: &Name, names: &[Name]) -> bool
    ensures { result ≡ is_among (name_tree name.now) (names_tree names.now) }
{
    for known in names {
        if known.bytes.as_slice() == name.bytes.as_slice() {
            return true;
        }
    }
    false
}

/// A name behind others, unless it is among them.
fn with_name(alloc: Global, names: Vec<Name>, name: &Name) -> Result<Vec<Name>, AllocError>
    ensures { IfOk result (λ v. names_tree v.items ≡ with_name (names_tree names.items) (name_tree name.now)) }
{
    if is_among(name, &names) {
        return Ok(names);
    }
    let mut names = names;
    names.push(copy_of(alloc, &name.bytes)?)?;
    Ok(names)
}

/// The names behind the target of a call.
fn with_target(alloc: Global, names: Vec<Name>, target: &Target) -> Result<Vec<Name>, AllocError>
    ensures { IfOk result (λ v. names_tree v.items ≡ with_names (names_tree names.items) (declared_by_target (target_tree target.now))) }
{
    match target {
        Target::Unused => Ok(names),
        Target::Int(_) => Ok(names),
        Target::Own(name) => with_name(alloc, names, name),
    }
}

/// The names behind those that a statement declares.
#[cycle(with_statement)]
fn with_statement(alloc: Global, names: Vec<Name>, kind: &StmtKind) -> Result<Vec<Name>, AllocError>
    ensures { IfOk result (λ v. names_tree v.items ≡ with_names (names_tree names.items) (declared_in_stmt (stmt_tree kind.now))) }
{
    match kind {
        StmtKind::Let { name, .. } => with_name(alloc, names, name),
        StmtKind::Alloc { name, .. } => with_name(alloc, names, name),
        StmtKind::Call { target, .. } => with_target(alloc, names, target),
        StmtKind::If { then, other, .. } => {
            let names = with_nested(alloc, names, then)?;
            with_nested(alloc, names, other)
        }
        StmtKind::While { body, .. } => with_nested(alloc, names, body),
        StmtKind::Par { left, right } => {
            let names = with_nested(alloc, names, left)?;
            with_nested(alloc, names, right)
        }
        StmtKind::Split {
            left,
            right,
            body,
            ..
        } => {
            let names = with_name(alloc, names, left)?;
            let names = with_name(alloc, names, right)?;
            with_nested(alloc, names, body)
        }
        StmtKind::Assign { .. } => Ok(names),
        StmtKind::Put { .. } => Ok(names),
        StmtKind::Free { .. } => Ok(names),
        StmtKind::Print { .. } => Ok(names),
    }
}

/// The names behind those of the statements inside a statement.
#[cycle(with_statement)]
fn with_nested(alloc: Global, names: Vec<Name>, body: &Body) -> Result<Vec<Name>, AllocError>
    ensures { IfOk result (λ v. names_tree v.items ≡ with_names (names_tree names.items) (declared_in_body (rows_tree body.now))) }
{
    with_list(alloc, names, body)
}

/// The names behind those of a list of statements.
#[cycle(with_statement)]
fn with_list(alloc: Global, names: Vec<Name>, body: &[Stmt]) -> Result<Vec<Name>, AllocError>
    ensures { IfOk result (λ v. names_tree v.items ≡ with_names (names_tree names.items) (declared_in_body (body_tree body.now))) }
{
    let mut names = names;
    for stmt in body {
        names = with_statement(alloc, names, &stmt.kind)?;
    }
    Ok(names)
}

/// The names behind those of parameters.
fn with_params(alloc: Global, names: Vec<Name>, params: &[Param]) -> Result<Vec<Name>, AllocError>
    ensures { IfOk result (λ v. names_tree v.items ≡ with_names (names_tree names.items) (param_names (params_tree params.now))) }
{
    let mut names = names;
    for param in params {
        names = with_name(alloc, names, &param.name)?;
    }
    Ok(names)
}

/// The names of a function's slots.
pub(crate) fn slot_names(alloc: Global, func: &Func) -> Result<Vec<Name>, AllocError>
    ensures { IfOk result (λ v. names_tree v.items ≡ slot_names (func_tree func.now)) }
{
    let names = with_params(alloc, Vec::new(alloc), &func.params)?;
    with_list(alloc, names, &func.body)
}
