//! The tests, by recursion over the statements.

ghost use Rattle.std.specs.Prelude.{◌≡◌, ◌||◌};
ghost use Rattle.std.specs.Str.{bytes_eq};
ghost use Rattle.par_tree.specs.View.{name_tree, expr_tree, links_tree, target_tree, arg_tree, args_tree, stmt_tree, body_tree};
ghost use Rattle.par_tree.specs.Names.{names_in_expr, names_in_links, names_in_target, names_in_arg, names_in_args, names_in_stmt, names_in_body, assigns_in_target, assigns_in_stmt, assigns_in_body};

use par_tree::{Arg, Expr, Link, Name, Stmt, StmtKind, Target};

/// Whether two names are the same.
pub fn is_name(written: &Name, name: &[u8]) -> bool
    ensures { result ≡ bytes_eq (name_tree written.now) name.now }
{
    written.bytes.as_slice() == name
}

/// Whether an expression names `name`.
#[cycle(names_in_expression)]
fn names_in_expression(name: &[u8], expr: &Expr) -> bool
    ensures { result ≡ names_in_expr name.now (expr_tree expr.now) }
{
    match expr {
        Expr::Num(_) => false,
        Expr::Var(written) | Expr::Len(written) => is_name(written, name),
        Expr::Get(written, index) => is_name(written, name) || names_in_expression(name, index),
        Expr::Neg(operand) => names_in_expression(name, operand),
        Expr::Chain { first, rest } => {
            names_in_expression(name, first) || names_in_links(name, rest)
        }
        Expr::Cmp { left, right, .. } => {
            names_in_expression(name, left) || names_in_expression(name, right)
        }
    }
}

/// Whether one of the operands behind the first one of a chain names `name`.
#[cycle(names_in_expression)]
fn names_in_links(name: &[u8], rest: &[Link]) -> bool
    ensures { result ≡ names_in_links name.now (links_tree rest.now) }
{
    for link in rest {
        if names_in_expression(name, &link.operand) {
            return true;
        }
    }
    false
}

/// Whether the target of a call is `name`.
fn names_in_target(name: &[u8], target: &Target) -> bool
    ensures { result ≡ names_in_target name.now (target_tree target.now) }
{
    match target {
        Target::Unused => false,
        Target::Int(written) | Target::Own(written) => is_name(written, name),
    }
}

/// Whether an argument names `name`.
fn names_in_argument(name: &[u8], arg: &Arg) -> bool
    ensures { result ≡ names_in_arg name.now (arg_tree arg.now) }
{
    match arg {
        Arg::Value(expr) => names_in_expression(name, expr),
        Arg::Lend(written) | Arg::Give(written) => is_name(written, name),
    }
}

/// Whether one of the arguments names `name`.
fn names_in_arguments(name: &[u8], args: &[Arg]) -> bool
    ensures { result ≡ names_in_args name.now (args_tree args.now) }
{
    for arg in args {
        if names_in_argument(name, arg) {
            return true;
        }
    }
    false
}

/// Whether the head of a `split` names `name`.
fn names_in_parts(name: &[u8], block: &Name, at: &Expr, left: &Name, right: &Name) -> bool
    ensures { result ≡ (bytes_eq (name_tree block.now) name.now || names_in_expr name.now (expr_tree at.now) || bytes_eq
        (name_tree left.now) name.now || bytes_eq (name_tree right.now) name.now) }
{
    is_name(block, name)
        || names_in_expression(name, at)
        || is_name(left, name)
        || is_name(right, name)
}

/// Whether a statement names `name`.
#[cycle(names_in_statement)]
fn names_in_statement(name: &[u8], kind: &StmtKind) -> bool
    ensures { result ≡ names_in_stmt name.now (stmt_tree kind.now) }
{
    match kind {
        StmtKind::Let {
            name: written,
            value: expr,
        }
        | StmtKind::Assign {
            name: written,
            value: expr,
        }
        | StmtKind::Alloc {
            name: written,
            size: expr,
        } => { is_name(written, name) || names_in_expression(name, expr) }
        StmtKind::Put {
            block,
            index,
            value,
        } => {
            is_name(block, name)
                || names_in_expression(name, index)
                || names_in_expression(name, value)
        }
        StmtKind::Free { name: written } => is_name(written, name),
        StmtKind::If { cond, then, other } => {
            names_in_expression(name, cond) || (names_in(name, then) || names_in(name, other))
        }
        StmtKind::While { cond, body } => names_in_expression(name, cond) || names_in(name, body),
        StmtKind::Call { target, args, .. } => {
            names_in_target(name, target) || names_in_arguments(name, args)
        }
        StmtKind::Print { value } => names_in_expression(name, value),
        StmtKind::Par { left, right } => names_in(name, left) || names_in(name, right),
        StmtKind::Split {
            block,
            at,
            left,
            right,
            body,
        } => { names_in_parts(name, block, at, left, right) || names_in(name, body) }
    }
}

/// Whether a list of statements names `name`.
#[cycle(names_in_statement)]
pub fn names_in(name: &[u8], body: &[Stmt]) -> bool
    ensures { result ≡ names_in_body name.now (body_tree body.now) }
{
    for stmt in body {
        if names_in_statement(name, &stmt.kind) {
            return true;
        }
    }
    false
}

/// Whether the answer of a call is assigned to the integer `name`.
fn assigns_in_target(name: &[u8], target: &Target) -> bool
    ensures { result ≡ assigns_in_target name.now (target_tree target.now) }
{
    match target {
        Target::Unused | Target::Own(_) => false,
        Target::Int(written) => is_name(written, name),
    }
}

/// Whether a statement assigns to the integer `name`.
#[cycle(assigns_in_statement)]
fn assigns_in_statement(name: &[u8], kind: &StmtKind) -> bool
    ensures { result ≡ assigns_in_stmt name.now (stmt_tree kind.now) }
{
    match kind {
        StmtKind::Let { .. }
        | StmtKind::Put { .. }
        | StmtKind::Alloc { .. }
        | StmtKind::Free { .. }
        | StmtKind::Print { .. } => false,
        StmtKind::Assign { name: written, .. } => is_name(written, name),
        StmtKind::If { then, other, .. } => assigns_in(name, then) || assigns_in(name, other),
        StmtKind::Call { target, .. } => assigns_in_target(name, target),
        StmtKind::Par { left, right } => assigns_in(name, left) || assigns_in(name, right),
        StmtKind::While { body, .. } | StmtKind::Split { body, .. } => assigns_in(name, body),
    }
}

/// Whether a list of statements assigns to the integer `name`.
#[cycle(assigns_in_statement)]
pub fn assigns_in(name: &[u8], body: &[Stmt]) -> bool
    ensures { result ≡ assigns_in_body name.now (body_tree body.now) }
{
    for stmt in body {
        if assigns_in_statement(name, &stmt.kind) {
            return true;
        }
    }
    false
}
