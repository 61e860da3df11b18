ghost use Rattle.accepted_source.specs.Laws.{CallsAreCalls, NamesAreDeclared, MainIsThere, FunctionNamesDiffer};
ghost use Rattle.accepted_source.specs.Sizes.{SizesAreSmall, CountsAreOfTheTree};

/// Each call names a function of the program, takes a block from it exactly where it hands one back, and
/// passes one argument for each parameter, of the parameter's kind.
pub fn calls_are_calls()
    ensures { CallsAreCalls }
{}

/// Each name that is written in a function is declared there.
pub fn names_are_declared()
    ensures { NamesAreDeclared }
{}

/// There is a `main`, which takes nothing and hands no block back.
pub fn main_is_there()
    ensures { MainIsThere }
{}

/// Functions of different numbers have different names.
pub fn function_names_differ()
    ensures { FunctionNamesDiffer }
{}

/// The tree of a text has at most 1,024 functions, each of which declares at most 256 names, and at most
/// 1,048,576 statements.
pub fn sizes_are_small()
    ensures { SizesAreSmall }
{}

/// The tokens of a program have one function or one declared name too many exactly where its tree has.
pub fn counts_are_of_the_tree()
    ensures { CountsAreOfTheTree }
{}
