use crate::node_kind::NodeKind;

/// Slots of a frame.
pub type Slots = Vec<u16>;

/// Numbers of nodes, in the order of a list of statements.
pub type NodeList = Vec<u32>;

/// A statement, and the line of its first token, from 1.
#[derive(Drop)]
pub struct Node {
    pub line: u32,
    pub kind: NodeKind,
}
