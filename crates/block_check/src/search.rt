//! The search for a `par` of a function, in the order of the text.

ghost use Rattle.std.specs.Prelude.{◌≡◌, Ok, []};
ghost use Rattle.par_tree.specs.View.{name_tree, stmt_tree, body_tree, params_tree, func_tree};
ghost use Rattle.block_check.specs.Shown.{env_shown, Walks};
ghost use Rattle.par_names.specs.Rows.{rows_tree};
ghost use Rattle.block_check.specs.Forks.{split_names, declared_by, forks_in_stmt, forks_in_body, forks_in_func, with_params};
ghost use Rattle.block_check.specs.Sought.{Seeks};

use crate::changes::{block_entry, integer_entry, lent_entry, param_entry, with_entry};
use crate::entry::Entry;
use crate::fork::Fork;
use crate::refusal::{Fail, Walked};
use crate::sought::Sought;
use crate::statements::take_answer;
use par_tree::{Body, Func, Name, Param, Stmt, StmtKind};
use std::alloc::Global;

/// The names that are visible behind a statement.
fn declared_by<'a>(line: u32, names: Vec<Entry<'a>>, kind: &'a StmtKind) -> Walked<'a>
    ensures { Walks env_shown result (Ok (declared_by (env_shown names.entry) line (stmt_tree kind.now))) }
{
    match kind {
        StmtKind::Let { name, .. } => with_entry(names, integer_entry(&name.bytes, line)),
        StmtKind::Alloc { name, .. } => with_entry(names, block_entry(&name.bytes, line)),
        StmtKind::Call { target, .. } => take_answer(line, names, target),
        StmtKind::Assign { .. }
        | StmtKind::Put { .. }
        | StmtKind::Free { .. }
        | StmtKind::If { .. }
        | StmtKind::While { .. }
        | StmtKind::Print { .. }
        | StmtKind::Par { .. }
        | StmtKind::Split { .. } => Ok(names),
    }
}

/// The names of a `split` are visible in its body.
fn with_parts<'a>(line: u32, names: Vec<Entry<'a>>, left: &'a Name, right: &'a Name) -> Walked<'a>
    ensures { Walks env_shown result (Ok (split_names (env_shown names.entry) line (name_tree left.now) (name_tree right.now))) }
{
    let inner = with_entry(names, lent_entry(&left.bytes, line))?;
    with_entry(inner, lent_entry(&right.bytes, line))
}

/// Searches a statement.
#[cycle(seek)]
fn seek_in_statement<'a>(
    number: u32,
    line: u32,
    names: Vec<Entry<'a>>,
    kind: &'a StmtKind,
) -> Result<Sought<'a>, Fail<'a>>
    ensures { Seeks (forks_in_stmt (env_shown names.entry) line (stmt_tree kind.now)) number (env_shown names.entry) result }
{
    match kind {
        StmtKind::Let { .. }
        | StmtKind::Assign { .. }
        | StmtKind::Put { .. }
        | StmtKind::Alloc { .. }
        | StmtKind::Free { .. }
        | StmtKind::Call { .. }
        | StmtKind::Print { .. } => Ok(Sought::Passed(number, names)),
        StmtKind::While { body, .. } => seek(number, names, body),
        StmtKind::If { then, other, .. } => match seek(number, names, then)? {
            Sought::Found(fork) => Ok(Sought::Found(fork)),
            Sought::Passed(number, names) => seek(number, names, other),
        },
        StmtKind::Par { left, right } => {
            if number == 0 {
                return Ok(Sought::Found(Fork { names, left, right }));
            }
            match seek(number - 1, names, left)? {
                Sought::Found(fork) => Ok(Sought::Found(fork)),
                Sought::Passed(number, names) => seek(number, names, right),
            }
        }
        StmtKind::Split {
            left,
            right,
            body,
            ..
        } => {
            let visible = names.len();
            let inner = with_parts(line, names, left, right)?;
            match seek(number, inner, body)? {
                Sought::Found(fork) => Ok(Sought::Found(fork)),
                Sought::Passed(number, mut names) => {
                    names.truncate(visible);
                    Ok(Sought::Passed(number, names))
                }
            }
        }
    }
}

/// Searches the statements that a statement owns.
#[cycle(seek)]
fn seek<'a>(number: u32, names: Vec<Entry<'a>>, body: &'a Body) -> Result<Sought<'a>, Fail<'a>>
    ensures { Seeks (forks_in_body (env_shown names.entry) (rows_tree body.now)) number (env_shown names.entry) result }
{
    seek_in_list(number, names, body)
}

/// Searches a list of statements.
#[cycle(seek)]
fn seek_in_list<'a>(
    number: u32,
    names: Vec<Entry<'a>>,
    body: &'a [Stmt],
) -> Result<Sought<'a>, Fail<'a>>
    ensures { Seeks (forks_in_body (env_shown names.entry) (body_tree body.now)) number (env_shown names.entry) result }
{
    let visible = names.len();
    let mut number = number;
    let mut names = names;
    for stmt in body {
        match seek_in_statement(number, stmt.line, names, &stmt.kind)? {
            Sought::Found(fork) => return Ok(Sought::Found(fork)),
            Sought::Passed(left, passed) => {
                number = left;
                names = declared_by(stmt.line, passed, &stmt.kind)?;
            }
        }
    }
    names.truncate(visible);
    Ok(Sought::Passed(number, names))
}

/// The parameters of a function are visible in its body.
fn with_params<'a>(line: u32, mut names: Vec<Entry<'a>>, params: &'a [Param]) -> Walked<'a>
    ensures { Walks env_shown result (Ok (with_params (env_shown names.entry) line (params_tree params.now))) }
{
    for param in params {
        names = with_entry(names, param_entry(param, line))?;
    }
    Ok(names)
}

/// Searches a function.
pub(crate) fn seek_in_function<'a>(
    alloc: Global,
    number: u32,
    func: &'a Func,
) -> Result<Sought<'a>, Fail<'a>>
    ensures { Seeks (forks_in_func (func_tree func.now)) number (with_params [] func.now.line (params_tree func.now.params.items)) result }
{
    let names = with_params(func.line, Vec::new(alloc), &func.params)?;
    seek_in_list(number, names, &func.body)
}
