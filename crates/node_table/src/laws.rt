ghost use Rattle.node_table.specs.Laws.{SlotNamesDiffer, SameTableSameProgram, CallsFindFunctions, NumbersHaveNodes};

/// Slots of different numbers have different names. So a function has one slot for each of its names.
pub fn slot_names_differ()
    ensures { SlotNamesDiffer }
{}

/// Tables with the same nodes, the same functions and the same `main` are tables of the same program.
pub fn same_table_same_program()
    ensures { SameTableSameProgram }
{}

/// The number in a call is that of the function which the call finds by its name, and the table has this function.
pub fn calls_find_functions()
    ensures { CallsFindFunctions }
{}

/// Each number of a list of statements has a node.
pub fn numbers_have_nodes()
    ensures { NumbersHaveNodes }
{}
