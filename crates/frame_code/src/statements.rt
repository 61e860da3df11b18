//! Statements as nodes.

ghost use Rattle.std.specs.Prelude.{◌≡◌, ◌<◌, ◌≤◌, ◌+◌, ◌++◌, [], ◌∷◌, IfOk, length, slice_set};
ghost use Rattle.par_tree.specs.View.{name_tree, expr_tree, target_tree, args_tree, stmt_tree, body_tree};
ghost use Rattle.par_names.specs.Rows.{rows_tree};
ghost use Rattle.accepted_source.specs.Sizes.{stmt_size, body_size};
ghost use Rattle.node_table.specs.Programs.{IsStmt, IsBody, AsLet, AsAssign, AsPut, AsAlloc, AsCall};
ghost use Rattle.node_table.specs.Shown.{nodes_shown, kind_shown};
ghost use Rattle.frame_code.specs.Growing.{Grown};
ghost use Rattle.frame_code.specs.Scopes.{functions_of, names_of_scope};
ghost use Rattle.frame_code.specs.Slotted.{Has, HasExpr, HasTarget, HasArgs, HasStmt, HasBody, most_nodes};

use crate::branches::branch_slots;
use crate::expressions::{lower_arguments, lower_expression, lower_target};
use crate::scope::Scope;
use node_table::{Node, NodeKind, NodeList};
use par_tree::{Arg, Body, Expr, Name, Stmt, StmtKind, Target};
use std::alloc::{AllocError, Global};

/// The number of the next node.
fn next_number(nodes: &[Node]) -> u32
    requires { length nodes.now ≤ most_nodes }
    ensures { result ≡ length nodes.now }
{
    nodes.len() as u32
}

/// Keeps a place for a node, behind which what stands inside the node is put.
fn reserved(mut nodes: Vec<Node>, line: u32) -> Result<Vec<Node>, AllocError>
    ensures { IfOk result (λ v. (p : Node) × (v.items ≡ nodes.items ++ p ∷ [])) }
{
    nodes.push(Node {
        line,
        kind: NodeKind::Free { name: 0 },
    })?;
    Ok(nodes)
}

/// Puts a node into its place.
fn placed(mut nodes: Vec<Node>, number: u32, node: Node) -> Vec<Node>
    requires { number < length nodes.items }
    ensures { result.items ≡ slice_set nodes.items number node }
{
    nodes[number as usize] = node;
    nodes
}

/// `let name = value;`
fn let_node(alloc: Global, scope: &Scope, name: &Name, value: &Expr) -> Result<NodeKind, AllocError>
    requires { Has (names_of_scope scope.now) (name_tree name.now) × HasExpr (names_of_scope scope.now) (expr_tree value.now) }
    ensures { IfOk result (λ k. AsLet (names_of_scope scope.now) (name_tree name.now) (expr_tree value.now) (kind_shown k)) }
{
    let value = lower_expression(alloc, &scope.names, value)?;
    let name = scope.names.slot(name);
    Ok(NodeKind::Let { name, value })
}

/// `name = value;`
fn assign_node(
    alloc: Global,
    scope: &Scope,
    name: &Name,
    value: &Expr,
) -> Result<NodeKind, AllocError>
    requires { Has (names_of_scope scope.now) (name_tree name.now) × HasExpr (names_of_scope scope.now) (expr_tree value.now) }
    ensures { IfOk result (λ k. AsAssign (names_of_scope scope.now) (name_tree name.now) (expr_tree value.now) (kind_shown k)) }
{
    let value = lower_expression(alloc, &scope.names, value)?;
    let name = scope.names.slot(name);
    Ok(NodeKind::Assign { name, value })
}

/// `block[index] = value;`
fn put_node(
    alloc: Global,
    scope: &Scope,
    block: &Name,
    index: &Expr,
    value: &Expr,
) -> Result<NodeKind, AllocError>
    requires { Has (names_of_scope scope.now) (name_tree block.now)
        × HasExpr (names_of_scope scope.now) (expr_tree index.now) × HasExpr (names_of_scope scope.now) (expr_tree value.now) }
    ensures { IfOk result (λ k. AsPut (names_of_scope scope.now) (name_tree block.now) (expr_tree index.now) (expr_tree value.now)
        (kind_shown k)) }
{
    let index = lower_expression(alloc, &scope.names, index)?;
    let value = lower_expression(alloc, &scope.names, value)?;
    let block = scope.names.slot(block);
    Ok(NodeKind::Put {
        block,
        index,
        value,
    })
}

/// `alloc name = size;`
fn alloc_node(
    alloc: Global,
    scope: &Scope,
    name: &Name,
    size: &Expr,
) -> Result<NodeKind, AllocError>
    requires { Has (names_of_scope scope.now) (name_tree name.now) × HasExpr (names_of_scope scope.now) (expr_tree size.now) }
    ensures { IfOk result (λ k. AsAlloc (names_of_scope scope.now) (name_tree name.now) (expr_tree size.now) (kind_shown k)) }
{
    let size = lower_expression(alloc, &scope.names, size)?;
    let name = scope.names.slot(name);
    Ok(NodeKind::Alloc { name, size })
}

/// `call receiver = name(args);`
fn call_node(
    alloc: Global,
    scope: &Scope,
    receiver: &Target,
    name: &Name,
    args: &[Arg],
) -> Result<NodeKind, AllocError>
    requires { HasTarget (names_of_scope scope.now) (target_tree receiver.now)
        × Has (functions_of scope.now) (name_tree name.now) × HasArgs (names_of_scope scope.now) (args_tree args.now) }
    ensures { IfOk result (λ k. AsCall (functions_of scope.now) (names_of_scope scope.now) (target_tree receiver.now) (name_tree name.now)
        (args_tree args.now)
        (kind_shown k)) }
{
    let target = lower_target(&scope.names, receiver);
    let func = scope.functions.number(&name.bytes);
    let args = lower_arguments(alloc, &scope.names, args)?;
    Ok(NodeKind::Call { target, func, args })
}

/// A statement, with what stands inside it behind the nodes.
#[cycle(lower_statement)]
fn lower_statement(
    alloc: Global,
    scope: &Scope,
    nodes: Vec<Node>,
    kind: &StmtKind,
) -> Result<(Vec<Node>, NodeKind), AllocError>
    requires { HasStmt (functions_of scope.now) (names_of_scope scope.now) (stmt_tree kind.now)
        × (length (nodes_shown nodes.items) + stmt_size (stmt_tree kind.now) ≤ most_nodes + 1) }
    ensures count { IfOk result (λ r. length (nodes_shown r.0.items) + 1 ≡ length (nodes_shown nodes.items) + stmt_size
        (stmt_tree kind.now)) }
    ensures table { IfOk result (λ r. Grown (nodes_shown nodes.items) (nodes_shown r.0.items)
        × IsStmt (nodes_shown r.0.items) (functions_of scope.now) (names_of_scope scope.now) (stmt_tree kind.now) (length (nodes_shown nodes.items))
        (kind_shown r.1)) }
{
    match kind {
        StmtKind::Let { name, value } => Ok((nodes, let_node(alloc, scope, name, value)?)),
        StmtKind::Assign { name, value } => Ok((nodes, assign_node(alloc, scope, name, value)?)),
        StmtKind::Put {
            block,
            index,
            value,
        } => Ok((nodes, put_node(alloc, scope, block, index, value)?)),
        StmtKind::Alloc { name, size } => Ok((nodes, alloc_node(alloc, scope, name, size)?)),
        StmtKind::Free { name } => {
            let name = scope.names.slot(name);
            Ok((nodes, NodeKind::Free { name }))
        }
        StmtKind::Call { target, func, args } => {
            Ok((nodes, call_node(alloc, scope, target, func, args)?))
        }
        StmtKind::Print { value } => {
            let value = lower_expression(alloc, &scope.names, value)?;
            Ok((nodes, NodeKind::Print { value }))
        }
        StmtKind::If { cond, then, other } => {
            let cond = lower_expression(alloc, &scope.names, cond)?;
            let (nodes, then) = lower_nested(alloc, scope, nodes, then)?;
            let (nodes, other) = lower_nested(alloc, scope, nodes, other)?;
            Ok((nodes, NodeKind::If { cond, then, other }))
        }
        StmtKind::While { cond, body } => {
            let cond = lower_expression(alloc, &scope.names, cond)?;
            let (nodes, body) = lower_nested(alloc, scope, nodes, body)?;
            Ok((nodes, NodeKind::While { cond, body }))
        }
        StmtKind::Par { left, right } => {
            let sets = branch_slots(alloc, &scope.names, left)?;
            let (nodes, left) = lower_nested(alloc, scope, nodes, left)?;
            let (nodes, right) = lower_nested(alloc, scope, nodes, right)?;
            let kind = NodeKind::Both {
                left,
                right,
                left_blocks: sets.blocks,
                left_assigned: sets.assigned,
            };
            Ok((nodes, kind))
        }
        StmtKind::Split {
            block,
            at,
            left,
            right,
            body,
        } => {
            let at = lower_expression(alloc, &scope.names, at)?;
            let (nodes, body) = lower_nested(alloc, scope, nodes, body)?;
            let block = scope.names.slot(block);
            let left = scope.names.slot(left);
            let right = scope.names.slot(right);
            let kind = NodeKind::Split {
                block,
                at,
                left,
                right,
                body,
            };
            Ok((nodes, kind))
        }
    }
}

/// The statements inside a statement.
#[cycle(lower_statement)]
fn lower_nested(
    alloc: Global,
    scope: &Scope,
    nodes: Vec<Node>,
    body: &Body,
) -> Result<(Vec<Node>, NodeList), AllocError>
    requires { HasBody (functions_of scope.now) (names_of_scope scope.now) (rows_tree body.now)
        × (length (nodes_shown nodes.items) + body_size (rows_tree body.now) ≤ most_nodes) }
    ensures count { IfOk result (λ r. length (nodes_shown r.0.items) ≡ length (nodes_shown nodes.items) + body_size (rows_tree body.now)) }
    ensures table { IfOk result (λ r. Grown (nodes_shown nodes.items) (nodes_shown r.0.items)
        × IsBody (nodes_shown r.0.items) (functions_of scope.now) (names_of_scope scope.now) (rows_tree body.now) (length (nodes_shown nodes.items))
        r.1.items) }
{
    lower_list(alloc, scope, nodes, body)
}

/// A list of statements behind the nodes, and their numbers.
#[cycle(lower_statement)]
pub(crate) fn lower_list(
    alloc: Global,
    scope: &Scope,
    nodes: Vec<Node>,
    body: &[Stmt],
) -> Result<(Vec<Node>, NodeList), AllocError>
    requires { HasBody (functions_of scope.now) (names_of_scope scope.now) (body_tree body.now)
        × (length (nodes_shown nodes.items) + body_size (body_tree body.now) ≤ most_nodes) }
    ensures count { IfOk result (λ r. length (nodes_shown r.0.items) ≡ length (nodes_shown nodes.items) + body_size (body_tree body.now)) }
    ensures table { IfOk result (λ r. Grown (nodes_shown nodes.items) (nodes_shown r.0.items)
        × IsBody (nodes_shown r.0.items) (functions_of scope.now) (names_of_scope scope.now) (body_tree body.now) (length (nodes_shown nodes.items))
        r.1.items) }
{
    let mut numbers = Vec::new(alloc);
    let mut nodes = nodes;
    for stmt in body {
        let number = next_number(&nodes);
        let started = reserved(nodes, stmt.line)?;
        let (made, kind) = lower_statement(alloc, scope, started, &stmt.kind)?;
        let line = stmt.line;
        nodes = placed(made, number, Node { line, kind });
        numbers.push(number)?;
    }
    Ok((nodes, numbers))
}
