ghost use Rattle.depth_first_list.specs.Laws.{Always};
ghost use Rattle.trail_check.specs.PlaceLaws.{NextFollows, ParentFollows};

/// Directly after an action, unless it is a Fork or an End, is the next action of the same thread.
pub fn next_follows()
    ensures { Always NextFollows }
{}

/// Directly after a Fork is all of the child up to its End, and directly after that the next action of the parent.
pub fn parent_follows()
    ensures { Always ParentFollows }
{}
