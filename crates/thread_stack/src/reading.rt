ghost use Rattle.std.specs.Prelude.{◌≡◌, ◌≤◌, ◌<◌, ◌++◌, ℕ, List, length, IsSome, IfSome, ◌↔◌, option_copied};
ghost use Rattle.depth_first_run.specs.Passed.Tree.{Program, Func, Body as BodyTree};
ghost use Rattle.depth_first_run.specs.Middle.{Frame as RunFrame, before_all};
ghost use Rattle.node_table.specs.Codes.{code_shown};
ghost use Rattle.thread_stack.specs.Lists.{numbers_of, numbers_from, kind_at, kinds_shown};
ghost use Rattle.thread_stack.specs.Frames.{AreStatements, AreFrames, names_now, frames_shown};
ghost use Rattle.thread_stack.specs.Measure.{frames_cost, list_cost, node_cost};

use crate::frame::Frame;
use crate::list_of::ListOf;
use node_table::{FuncCode, NodeKind, NodeTable};

/// The numbers of the statements of a list, in their order; none where the code has no such list.
#[inline(always)]
pub fn numbers(table: &NodeTable, list: ListOf) -> &[u32]
    ensures { result.now ≡ numbers_of (code_shown table.now) list }
{
    match list {
        ListOf::Body(func) => match table.func(func) {
            Some(func) => &func.body,
            None => &[],
        },
        ListOf::Then(node) => match kind(table, node) {
            Some(NodeKind::If { then, .. }) => then,
            _ => &[],
        },
        ListOf::Other(node) => match kind(table, node) {
            Some(NodeKind::If { other, .. }) => other,
            _ => &[],
        },
        ListOf::Round(node) => match kind(table, node) {
            Some(NodeKind::While { body, .. }) => body,
            _ => &[],
        },
        ListOf::Left(node) => match kind(table, node) {
            Some(NodeKind::Both { left, .. }) => left,
            _ => &[],
        },
        ListOf::Right(node) => match kind(table, node) {
            Some(NodeKind::Both { right, .. }) => right,
            _ => &[],
        },
        ListOf::Inside(node) => match kind(table, node) {
            Some(NodeKind::Split { body, .. }) => body,
            _ => &[],
        },
    }
}

/// What the node of a number does, where there is one.
fn kind(table: &NodeTable, node: u32) -> Option<&NodeKind>
    ensures { kinds_shown (option_copied result) ≡ kind_at (code_shown table.now) node }
{
    match table.node(node) {
        Some(node) => Some(&node.kind),
        None => None,
    }
}

/// The frame for the statements of a list from a place on; None exactly where there are none.
pub fn frame_from(table: &NodeTable, list: ListOf, next: usize) -> Option<Frame>
    ensures some { IsSome result ↔ (next < length (numbers_of (code_shown table.now) list)) }
    ensures frame { IfSome result (λ frame. frame ≡ Frame.Statements list next) }
    ensures frames { (p : Program) (gs : List Func) (b : BodyTree) (xs : List Frame) (fs : List RunFrame)
        → AreStatements p (code_shown table.now) (names_now gs) (numbers_from (code_shown table.now) list next) b
        → AreFrames p (code_shown table.now) gs xs fs
        → AreFrames p (code_shown table.now) gs (frames_shown result ++ xs) (before_all b fs) }
    ensures cost { frames_cost (code_shown table.now) (frames_shown result)
        ≤ list_cost (node_cost (code_shown table.now)) (numbers_from (code_shown table.now) list next) }
{
    if next < numbers(table, list).len() {
        Some(Frame::Statements { list, next })
    } else {
        None
    }
}
