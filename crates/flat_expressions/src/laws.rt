//! What holds of the straight code of expressions.

ghost use Rattle.flat_expressions.specs.Laws.{RowsGiveTheValue, ExpressionsHaveCode, AssignmentsHaveCode, WritesHaveCode};
ghost use Rattle.flat_expressions.specs.Laws.{ConditionsHaveCode};

/// The number of an expression over a row is its value over the store that the row shows.
pub fn rows_give_the_value()
    ensures { RowsGiveTheValue }
{}

/// Each expression has code for each slot that its number goes to.
pub fn expressions_have_code()
    ensures { ExpressionsHaveCode }
{}

/// Each assignment has code.
pub fn assignments_have_code()
    ensures { AssignmentsHaveCode }
{}

/// Each write to a block has code.
pub fn writes_have_code()
    ensures { WritesHaveCode }
{}

/// Each condition has code and a test.
pub fn conditions_have_code()
    ensures { ConditionsHaveCode }
{}
