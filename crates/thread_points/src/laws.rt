ghost use Rattle.thread_points.specs.Laws.{PointsReachTheEnd, TheRootIsAtItsPoint, StepsAreAloneOrFork, ListsArePlain, PlainStepsAreAlone, PlainStepsStayAtPoints, ParsFork, TreesFork, ForksGiveTwoPoints, StepsGiveTheActionOfTheList, JoinsAreOfTheList, EndsAreOfTheList, NextActionIsOfTheThread, OneBeginningOfALabel, OneEndOfALabel, FinishingGivesTheEnd, ThreadsBegin, ThreadsStep, ThreadsFork, OutcomesAreOfTheirChildren, ThreadsJoin, OnePartMore, TheRootTellsTheWhole, PartsTellTogether};

/// The points of a run are those on the way to its end.
pub fn points_reach_the_end()
    ensures { PointsReachTheEnd }
{}

/// The root begins at a point.
pub fn the_root_is_at_its_point()
    ensures { TheRootIsAtItsPoint }
{}

/// Each step of a thread changes it alone, or forks a child.
pub fn steps_are_alone_or_fork()
    ensures { StepsAreAloneOrFork }
{}

/// A list of statements is a plain frame, where it is any.
pub fn lists_are_plain()
    ensures { ListsArePlain }
{}

/// A step that puts plain frames changes its thread alone.
pub fn plain_steps_are_alone()
    ensures { PlainStepsAreAlone }
{}

/// A step that puts plain frames leaves its thread at a point.
pub fn plain_steps_stay_at_points()
    ensures { PlainStepsStayAtPoints }
{}

/// A `par` forks a child that does its first branch.
pub fn pars_fork()
    ensures { ParsFork }
{}

/// A tree of dummies with two halves forks a child that does the first one.
pub fn trees_fork()
    ensures { TreesFork }
{}

/// A step that forks gives the points of the child and of its parent.
pub fn forks_give_two_points()
    ensures { ForksGiveTwoPoints }
{}

/// The action that a thread does next is the action of the depth-first list with its label and next index.
pub fn steps_give_the_action_of_the_list()
    ensures { StepsGiveTheActionOfTheList }
{}

/// Where a thread joins a child, the Join of this child is the next action of the depth-first list.
pub fn joins_are_of_the_list()
    ensures { JoinsAreOfTheList }
{}

/// Where a thread has nothing left to do, its End is the next action of the depth-first list.
pub fn ends_are_of_the_list()
    ensures { EndsAreOfTheList }
{}

/// At each point the next action of the depth-first list is the next one of the thread.
pub fn next_action_is_of_the_thread()
    ensures { NextActionIsOfTheThread }
{}

/// Of each label there is one beginning.
pub fn one_beginning_of_a_label()
    ensures { OneBeginningOfALabel }
{}

/// Of each label there is one end.
pub fn one_end_of_a_label()
    ensures { OneEndOfALabel }
{}

/// Running out what is left to a thread gives the end of its label.
pub fn finishing_gives_the_end()
    ensures { FinishingGivesTheEnd }
{}

/// What begins is a thread that has left nothing.
pub fn threads_begin()
    ensures { ThreadsBegin }
{}

/// A step that changes a thread alone adds its items to the newest part.
pub fn threads_step()
    ensures { ThreadsStep }
{}

/// A step that forks gives a child that has left nothing, and its parent with a new part.
pub fn threads_fork()
    ensures { ThreadsFork }
{}

/// An open child has the label of its fork, and its outcome is what it comes to.
pub fn outcomes_are_of_their_children()
    ensures { OutcomesAreOfTheirChildren }
{}

/// A thread that ended with the label of a child is the child that is joined, and behind the Join the parts close up.
pub fn threads_join()
    ensures { ThreadsJoin }
{}

/// A thread has one part more than it has open children.
pub fn one_part_more()
    ensures { OnePartMore }
{}

/// The root's end tells the whole run.
pub fn the_root_tells_the_whole()
    ensures { TheRootTellsTheWhole }
{}

/// Two lists of items tell the first fault of both, and the lines before it.
pub fn parts_tell_together()
    ensures { PartsTellTogether }
{}
