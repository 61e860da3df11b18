ghost use Rattle.loop_laws.specs.TreeLaws.{HelpersStandBehind, EachLoopHasItsHelper, EachLoopIsACall, EachCallIsOfItsLoop, ExpansionsAreSo};

/// The functions of an accepted expansion are those of the text in which each loop is replaced, and then the helpers.
pub fn helpers_stand_behind()
    ensures { HelpersStandBehind }
{}

/// In an accepted expansion the function of the name `__sumJ` is the helper of loop J, on some line.
pub fn each_loop_has_its_helper()
    ensures { EachLoopHasItsHelper }
{}

/// Where a loop stood, a program calls the helper of the loop, with what the loop says.
pub fn each_loop_is_a_call()
    ensures { EachLoopIsACall }
{}

/// Each statement that calls the helper of a loop is the call of this loop.
pub fn each_call_is_of_its_loop()
    ensures { EachCallIsOfItsLoop }
{}

/// What an accepted expansion is: the text with a call in place of each loop, and the helpers.
pub fn expansions_are_so()
    ensures { ExpansionsAreSo }
{}
