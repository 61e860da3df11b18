use crate::code::Code;
use flat_program::FlatProgram;
use node_table::{FuncCode, Node, NodeTable};
use std::alloc::{AllocError, Global};

impl Code {
    ghost use Rattle.std.specs.Prelude.{◌≡◌, ◌==◌, IfOk, length, slice_get, option_copied};
    ghost use Rattle.node_table.specs.Programs.{IsAcceptedTable};
    ghost use Rattle.node_table.specs.Codes.{nodes_of, funcs_of, main_of, code_shown};

    /// The code of a node table.
    ///
    /// # Errors
    ///
    /// There is not enough memory.
    pub fn of(alloc: Global, table: NodeTable) -> Result<Code, AllocError>
        ensures { IfOk result (λ c. code_shown c ≡ code_shown table) }
    {
        let flat = FlatProgram::of(alloc, &table)?;
        Ok(Code { table, flat })
    }

    /// The table is that of some program that keeps the rules of ownership.
    pub fn is_accepted(&self)
        ensures { IsAcceptedTable (code_shown self.now) }
    {
        self.table.is_accepted();
    }

    /// How many nodes there are.
    pub fn len(&self) -> u32
        ensures { result ≡ length (nodes_of self.now) }
    {
        self.table.len()
    }

    /// Whether there are no nodes.
    pub fn is_empty(&self) -> bool
        ensures { result ≡ (length (nodes_of self.now) == 0) }
    {
        self.table.is_empty()
    }

    /// The node of a number, which is `None` where the number is not below `len`.
    #[inline(always)]
    pub fn node(&self, number: u32) -> Option<&Node>
        ensures { option_copied result ≡ slice_get (nodes_of self.now) number }
    {
        self.table.node(number)
    }

    /// The function of a number, in the order of the text from 0, or `None` where there is none.
    #[inline(always)]
    pub fn func(&self, number: u32) -> Option<&FuncCode>
        ensures { option_copied result ≡ slice_get (funcs_of self.now) number }
    {
        self.table.func(number)
    }

    /// The number of `main`.
    pub fn main(&self) -> u32
        ensures { result ≡ main_of self.now }
    {
        self.table.main()
    }

    /// A code of the same program: the same nodes, the same functions and the same `main`.
    ///
    /// # Errors
    ///
    /// There is not enough memory.
    pub fn copy(&self, alloc: Global) -> Result<Code, AllocError>
        ensures { IfOk result (λ c. code_shown c ≡ code_shown self.now) }
    {
        let table = self.table.copy(alloc)?;
        Code::of(alloc, table)
    }
}
