//! Statements.

ghost use Rattle.std.specs.Prelude.{◌≡◌, length, Ok, map};
ghost use Rattle.par_tree.specs.View.{name_tree, expr_tree, target_tree, args_tree, stmt_tree, body_tree};
ghost use Rattle.par_ownership.specs.Environment.{with_entry, integer_entry, block_entry, without, regained, after_gives, after_answer};
ghost use Rattle.par_ownership.specs.Walk.{branches_refusal, arms_refusal, after_arms, after_round, after_branches, ended, walk, walk_all, guarded, expr_refusal, fresh_refusal, integer_refusal, block_refusal, lent_refusal, call_refusal};
ghost use Rattle.par_ownership.specs.Ownership.{are_apart};
ghost use Rattle.par_names.specs.Named.{body_of};
ghost use Rattle.block_check.specs.Shown.{split_opened, entry_shown, entries_shown, env_shown, funcs_tree, Tests, Walks};
ghost use Rattle.par_names.specs.Rows.{rows_tree};

use crate::calls::call;
use crate::changes::{
    block_entry, copy_of, ended, held_in_both, integer_entry, lent_entry, mark, same_held,
    with_entry,
};
use crate::entry::Entry;
use crate::environment::{unless, want_block, want_fresh, want_integer, want_not_lent};
use crate::expressions::check_expression;
use crate::mentions::{NamedBody, named};
use crate::refusal::{Tested, Walked};
use par_ownership::CheckKind;
use par_tree::{Arg, Body, Expr, Func, Name, Stmt, StmtKind, Target};
use std::alloc::Global;

/// Whether two branches may both run: no block is named in both, and no integer is assigned in one
/// and named in the other.
fn are_apart(left: &NamedBody, right: &NamedBody, entry: Entry) -> bool
    ensures { result ≡ are_apart (body_of left.now) (body_of right.now) (entry_shown entry.entry) }
{
    let name = entry.name;
    if entry.kind.is_block() {
        !(left.names(name) && right.names(name))
    } else {
        !((left.assigns(name) && right.names(name)) || (right.assigns(name) && left.names(name)))
    }
}

/// Refuses the first name that two branches share.
fn want_apart<'a>(line: u32, left: &NamedBody, right: &NamedBody, env: &[Entry<'a>]) -> Tested<'a>
    ensures { Tests result (branches_refusal line (body_of left.now) (body_of right.now) (entries_shown env.now)) }
{
    for entry in env {
        let kind = if entry.kind.is_block() {
            CheckKind::SharedBlock
        } else {
            CheckKind::SharedInt
        };
        unless(are_apart(left, right, *entry), kind, line, entry.name)?;
    }
    Ok(())
}

/// The branches of a `par` share no name.
fn want_branches_apart<'a>(
    alloc: Global,
    line: u32,
    left: &'a Body,
    right: &'a Body,
    env: &[Entry<'a>],
) -> Tested<'a>
    ensures { Tests result (branches_refusal line (rows_tree left.now) (rows_tree right.now) (entries_shown env.now)) }
{
    let left_names = named(alloc, env, left)?;
    let right_names = named(alloc, env, right)?;
    want_apart(line, &left_names, &right_names, env)
}

/// `let x = e;`
fn let_integer<'a>(line: u32, env: Vec<Entry<'a>>, name: &'a Name, value: &'a Expr) -> Walked<'a>
    ensures { Walks env_shown result (guarded (fresh_refusal line (env_shown env.entry) (name_tree name.now))
        (guarded (expr_refusal line (env_shown env.entry) (expr_tree value.now))
        (Ok (with_entry (env_shown env.entry) (integer_entry (name_tree name.now) line))))) }
{
    want_fresh(line, &env, &name.bytes)?;
    check_expression(line, &env, value)?;
    with_entry(env, integer_entry(&name.bytes, line))
}

/// `alloc b = e;`
fn alloc_block<'a>(line: u32, env: Vec<Entry<'a>>, name: &'a Name, size: &'a Expr) -> Walked<'a>
    ensures { Walks env_shown result (guarded (fresh_refusal line (env_shown env.entry) (name_tree name.now))
        (guarded (expr_refusal line (env_shown env.entry) (expr_tree size.now))
        (Ok (with_entry (env_shown env.entry) (block_entry (name_tree name.now) line))))) }
{
    want_fresh(line, &env, &name.bytes)?;
    check_expression(line, &env, size)?;
    with_entry(env, block_entry(&name.bytes, line))
}

/// `x = e;`
fn assign<'a>(line: u32, env: Vec<Entry<'a>>, name: &'a Name, value: &'a Expr) -> Walked<'a>
    ensures { Walks env_shown result (guarded (integer_refusal line (env_shown env.entry) (name_tree name.now))
        (guarded (expr_refusal line (env_shown env.entry) (expr_tree value.now)) (Ok (env_shown env.entry)))) }
{
    want_integer(line, &env, &name.bytes)?;
    check_expression(line, &env, value)?;
    Ok(env)
}

/// `print e;`
fn print<'a>(line: u32, env: Vec<Entry<'a>>, value: &'a Expr) -> Walked<'a>
    ensures { Walks env_shown result (guarded (expr_refusal line (env_shown env.entry) (expr_tree value.now)) (Ok (env_shown env.entry))) }
{
    check_expression(line, &env, value)?;
    Ok(env)
}

/// `b[i] = e;`
fn put<'a>(
    line: u32,
    env: Vec<Entry<'a>>,
    name: &'a Name,
    index: &'a Expr,
    value: &'a Expr,
) -> Walked<'a>
    ensures { Walks env_shown result (guarded (block_refusal line (env_shown env.entry) (name_tree name.now))
        (guarded (expr_refusal line (env_shown env.entry) (expr_tree index.now))
        (guarded (expr_refusal line (env_shown env.entry) (expr_tree value.now)) (Ok (env_shown env.entry))))) }
{
    want_block(line, &env, &name.bytes)?;
    check_expression(line, &env, index)?;
    check_expression(line, &env, value)?;
    Ok(env)
}

/// A block is freed, or handed back.
pub(crate) fn free<'a>(line: u32, mut env: Vec<Entry<'a>>, name: &'a Name) -> Walked<'a>
    ensures { Walks env_shown result (guarded (block_refusal line (env_shown env.entry) (name_tree name.now))
        (guarded (lent_refusal line (env_shown env.entry) (name_tree name.now))
        (Ok (without (env_shown env.entry) (name_tree name.now))))) }
{
    want_block(line, &env, &name.bytes)?;
    want_not_lent(line, &env, &name.bytes)?;
    mark(&mut env, &name.bytes, false);
    Ok(env)
}

/// The blocks that arguments give away are gone.
fn give_all(env: &mut [Entry], args: &[Arg])
    ensures { entries_shown env.new ≡ after_gives (entries_shown env.old) (args_tree args.now) }
{
    for arg in args {
        if let Arg::Give(name) = arg {
            mark(env, &name.bytes, false);
        }
    }
}

/// The block that a call hands back is declared.
pub(crate) fn take_answer<'a>(line: u32, env: Vec<Entry<'a>>, answer: &'a Target) -> Walked<'a>
    ensures { Walks env_shown result (Ok (after_answer (env_shown env.entry) (target_tree answer.now) line)) }
{
    match answer {
        Target::Unused | Target::Int(_) => Ok(env),
        Target::Own(name) => with_entry(env, block_entry(&name.bytes, line)),
    }
}

/// `call x = f(..);`
fn call_function<'a>(
    funcs: &'a [Func],
    line: u32,
    mut env: Vec<Entry<'a>>,
    answer: &'a Target,
    name: &'a Name,
    args: &'a [Arg],
) -> Walked<'a>
    ensures { Walks env_shown result (guarded (call_refusal (funcs_tree funcs.now) line (env_shown env.entry) (target_tree answer.now)
        (name_tree name.now) (args_tree args.now))
        (Ok (after_answer (after_gives (env_shown env.entry) (args_tree args.now)) (target_tree answer.now) line))) }
{
    call(funcs, line, &env, answer, name, args)?;
    give_all(&mut env, args);
    take_answer(line, env, answer)
}

/// The names of a `split` are declared, and its block is gone.
fn parts<'a>(
    line: u32,
    mut env: Vec<Entry<'a>>,
    name: &'a Name,
    at: &'a Expr,
    left: &'a Name,
    right: &'a Name,
) -> Walked<'a>
    ensures { Walks env_shown result (split_opened line (env_shown env.entry) (name_tree name.now) (expr_tree at.now) (name_tree left.now)
        (name_tree right.now)) }
{
    want_block(line, &env, &name.bytes)?;
    check_expression(line, &env, at)?;
    want_fresh(line, &env, &left.bytes)?;
    let mut env = with_entry(env, lent_entry(&left.bytes, line))?;
    want_fresh(line, &env, &right.bytes)?;
    env = with_entry(env, lent_entry(&right.bytes, line))?;
    mark(&mut env, &name.bytes, false);
    Ok(env)
}

/// Behind a `split` its block is held again.
fn after_split<'a>(mut env: Vec<Entry<'a>>, name: &Name) -> Walked<'a>
    ensures { Walks env_shown result (Ok (regained (env_shown env.entry) (name_tree name.now))) }
{
    mark(&mut env, &name.bytes, true);
    Ok(env)
}

/// The arms of an `if` leave the same blocks.
fn after_arms<'a>(line: u32, env: Vec<Entry<'a>>, other: Vec<Entry<'a>>) -> Walked<'a>
    ensures { Walks env_shown result (guarded (arms_refusal line (env_shown env.entry) (env_shown other.entry))
        (Ok (env_shown env.entry))) }
{
    same_held(line, &env, &other)?;
    Ok(env)
}

/// A statement.
#[cycle(check_statement)]
fn check_statement<'a>(
    alloc: Global,
    funcs: &'a [Func],
    line: u32,
    env: Vec<Entry<'a>>,
    kind: &'a StmtKind,
) -> Walked<'a>
    ensures { Walks env_shown result (walk (funcs_tree funcs.now) line (stmt_tree kind.now) (env_shown env.entry)) }
{
    let visible = env.len();
    match kind {
        StmtKind::Let { name, value } => let_integer(line, env, name, value),
        StmtKind::Assign { name, value } => assign(line, env, name, value),
        StmtKind::Put {
            block,
            index,
            value,
        } => put(line, env, block, index, value),
        StmtKind::Alloc { name, size } => alloc_block(line, env, name, size),
        StmtKind::Free { name } => free(line, env, name),
        StmtKind::Call { target, func, args } => {
            call_function(funcs, line, env, target, func, args)
        }
        StmtKind::Print { value } => print(line, env, value),
        StmtKind::If { cond, then, other } => {
            check_expression(line, &env, cond)?;
            let saved = copy_of(alloc, &env)?;
            let env = check_nested(alloc, funcs, visible, env, then)?;
            let other = check_nested(alloc, funcs, visible, saved, other)?;
            after_arms(line, env, other)
        }
        StmtKind::While { cond, body } => {
            check_expression(line, &env, cond)?;
            let round = copy_of(alloc, &env)?;
            let end = check_nested(alloc, funcs, visible, round, body)?;
            after_arms(line, env, end)
        }
        StmtKind::Par { left, right } => {
            want_branches_apart(alloc, line, left, right, &env)?;
            let forked = copy_of(alloc, &env)?;
            let left = check_nested(alloc, funcs, visible, forked, left)?;
            let right = check_nested(alloc, funcs, visible, env, right)?;
            held_in_both(alloc, &left, &right)
        }
        StmtKind::Split {
            block,
            at,
            left,
            right,
            body,
        } => {
            let env = parts(line, env, block, at, left, right)?;
            let end = check_nested(alloc, funcs, visible, env, body)?;
            after_split(end, block)
        }
    }
}

/// A list of statements with its end, which began with so many visible names.
#[cycle(check_statement)]
fn check_nested<'a>(
    alloc: Global,
    funcs: &'a [Func],
    visible: usize,
    env: Vec<Entry<'a>>,
    body: &'a Body,
) -> Walked<'a>
    ensures { Walks env_shown result (ended visible (walk_all (funcs_tree funcs.now) (rows_tree body.now) (env_shown env.entry))) }
{
    check_list(alloc, funcs, visible, env, body)
}

/// The same, of the statements themselves.
#[cycle(check_statement)]
fn check_list<'a>(
    alloc: Global,
    funcs: &'a [Func],
    visible: usize,
    env: Vec<Entry<'a>>,
    body: &'a [Stmt],
) -> Walked<'a>
    ensures { Walks env_shown result (ended visible (walk_all (funcs_tree funcs.now) (body_tree body.now) (env_shown env.entry))) }
{
    let end = check_statements(alloc, funcs, env, body)?;
    ended(visible, end)
}

/// A list of statements.
#[cycle(check_statement)]
pub(crate) fn check_statements<'a>(
    alloc: Global,
    funcs: &'a [Func],
    mut env: Vec<Entry<'a>>,
    body: &'a [Stmt],
) -> Walked<'a>
    ensures { Walks env_shown result (walk_all (funcs_tree funcs.now) (body_tree body.now) (env_shown env.entry)) }
{
    for stmt in body {
        env = check_statement(alloc, funcs, stmt.line, env, &stmt.kind)?;
    }
    Ok(env)
}
