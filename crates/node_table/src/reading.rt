ghost use Rattle.language_limits.specs.declared.TheConstants.{GREATEST_COUNT};

use crate::copies::{copy_functions, copy_nodes};
use crate::func_code::FuncCode;
use crate::node::Node;
use crate::node_table::NodeTable;
use std::alloc::{AllocError, Global};

impl NodeTable {
    ghost use Rattle.std.specs.Prelude.{◌≡◌, ◌≤◌, ◌==◌, IfOk, length, slice_get, option_copied};
    ghost use Rattle.node_table.specs.Codes.{nodes_of, funcs_of, main_of, code_shown};
    ghost use Rattle.node_table.specs.Programs.{IsAcceptedTable};
    ghost use Rattle.node_table.specs.Shown.{table_shown};

    /// The table of these nodes, which is that of some program that keeps the rules of ownership.
    pub fn of(nodes: Vec<Node>, funcs: Vec<FuncCode>, main: u32) -> NodeTable
        requires numbered { length nodes.items ≤ GREATEST_COUNT }
        requires accepted { IsAcceptedTable (table_shown nodes.items funcs.items main) }
        ensures { code_shown result ≡ table_shown nodes.items funcs.items main }
    {
        NodeTable { nodes, funcs, main }
    }

    /// The table is that of some program that keeps the rules of ownership.
    pub fn is_accepted(&self)
        ensures { IsAcceptedTable (code_shown self.now) }
    {
        let _main = self.main;
    }

    /// How many nodes there are.
    pub fn len(&self) -> u32
        ensures { result ≡ length (nodes_of self.now) }
    {
        self.nodes.len() as u32
    }

    /// Whether there are no nodes.
    pub fn is_empty(&self) -> bool
        ensures { result ≡ (length (nodes_of self.now) == 0) }
    {
        self.nodes.is_empty()
    }

    /// The node of a number, which is `None` where the number is not below `len`.
    pub fn node(&self, number: u32) -> Option<&Node>
        ensures { option_copied result ≡ slice_get (nodes_of self.now) number }
    {
        self.nodes.get(number as usize)
    }

    /// The function of a number, in the order of the text from 0, or `None` where there is none.
    pub fn func(&self, number: u32) -> Option<&FuncCode>
        ensures { option_copied result ≡ slice_get (funcs_of self.now) number }
    {
        self.funcs.get(number as usize)
    }

    /// The number of `main`.
    pub fn main(&self) -> u32
        ensures { result ≡ main_of self.now }
    {
        self.main
    }

    /// A table of the same program: the same nodes, the same functions and the same `main`.
    ///
    /// # Errors
    ///
    /// There is not enough memory.
    pub fn copy(&self, alloc: Global) -> Result<NodeTable, AllocError>
        ensures { IfOk result (λ c. code_shown c ≡ code_shown self.now) }
    {
        let nodes = copy_nodes(alloc, &self.nodes)?;
        let funcs = copy_functions(alloc, &self.funcs)?;
        let main = self.main;
        Ok(NodeTable { nodes, funcs, main })
    }
}
