use flat_program::FlatProgram;
use node_table::NodeTable;
use std::marker::Model;

/// The code of a program that keeps the rules of ownership: its node table, and flat code of its lists of statements.
///
/// Contracts see a code as its node table, since that alone says what the program means.
#[derive(Drop)]
pub struct Code {
    pub(crate) table: NodeTable,
    pub(crate) flat: FlatProgram,
}

impl Model for Code {
    ghost use Rattle.std.specs.Coded.{codes};
    ghost use Rattle.node_table.specs.Codes.{code_shown};
    ghost use Rattle.flat_program.specs.Programs.{IsFlatProgram};
    ghost use Rattle.node_table.specs.declared.node_table.NodeTable as tables;
    ghost use Rattle.node_table.specs.contracts.code_expr.CodeExpr as expressions;

    ghost Value = { tables.NodeTable };

    ghost coded = { Prim.hlevel (codes, expressions.the_row.coded) };

    ghost view = { λ code. code.table };

    ghost invariant = { λ code. IsFlatProgram (code_shown code.table) code.flat };
}
