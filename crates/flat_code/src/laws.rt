//! What holds of the flat code of programs.

ghost use Rattle.flat_code.specs.Laws.{ListsOfProgramsCanBeFlat, LongerRowsServe};

/// Each list of statements of a program has flat code in a row that has room for the intermediate numbers of its expressions.
pub fn lists_of_programs_can_be_flat()
    ensures { ListsOfProgramsCanBeFlat }
{}

/// A list that has flat code in a row of some length has flat code in each longer row.
pub fn longer_rows_serve()
    ensures { LongerRowsServe }
{}
