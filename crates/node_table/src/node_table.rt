ghost use Rattle.std.specs.Prelude.{◌≤◌};
ghost use Rattle.std.specs.Vec.{vec_len};
ghost use Rattle.language_limits.specs.declared.TheConstants.{GREATEST_COUNT};
ghost use Rattle.node_table.specs.Programs.{IsAcceptedTable};
ghost use Rattle.node_table.specs.Shown.{table_shown};

use crate::func_code::FuncCode;
use crate::node::Node;

/// A program that keeps the rules of ownership as a table of nodes, with its functions in the order of the text.
#[derive(Drop)]
pub struct NodeTable {
    pub(crate) nodes: Vec<Node>,
    pub(crate) funcs: Vec<FuncCode>,
    pub(crate) main: u32,
    ghost numbered: { vec_len nodes ≤ GREATEST_COUNT },
    ghost accepted: { IsAcceptedTable (table_shown nodes.items funcs.items main) },
}
