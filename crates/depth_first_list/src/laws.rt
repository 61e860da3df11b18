ghost use Rattle.std.specs.Prelude.{List};
ghost use Rattle.depth_first_list.specs.Actions.{Action};
ghost use Rattle.depth_first_list.specs.Laws.{Always, AlwaysWithin, PeakIsHighest, TreeRunsAsShaped, ForksTakeRecords, ChildEndsGiveBack, RootEndIsWeightless, DummiesAreWeightless, EndMeansAll, RootEndMeansAll, ParentsAreLive, JoinsTheLastLive, NextIsOfItsIndex, FirstMissingGoesFirst, FirstMissingNeverWaits, ChildBeginsBehindFork, ChildStandsBeforeParent, ChildStandsTogether, DummiesAreOfTrees, EachChildIsJoined, EachThreadEnds, EndIsLast, FirstMissingIsNext, ForkStandsBefore, ForkedOnce, ForksAreInOrder, IndexRises, JoinStandsBehindChild, JoinedOnce, JoinsTheNewest, LabelsFollowTheList, LiveHasNext, NamesDiffer, NextPlaces, NoIndexIsSkipped, IndexIsWithin, OrdinalIsWithin, RootEnds, TreesAreApart, TreesAreDoneFirst, TreesStandBefore};

/// The root acts, and its End is the last action of the list.
pub fn root_ends()
    ensures { Always RootEnds }
{}

/// No two actions have the same thread and index.
pub fn names_differ()
    ensures { Always NamesDiffer }
{}

/// The actions of a thread stand in the order of their indices.
pub fn index_rises()
    ensures { Always IndexRises }
{}

/// The indices of a thread are 0, 1, 2, and so on.
pub fn no_index_is_skipped()
    ensures { Always NoIndexIsSkipped }
{}

/// An action has at least as many before it as its index says.
pub fn index_is_within()
    ensures { Always IndexIsWithin }
{}

/// Before each action of a forked thread, and of those that stem from it, stands its Fork.
pub fn fork_stands_before()
    ensures { Always ForkStandsBefore }
{}

/// Each forked thread acts, first directly behind its Fork.
pub fn child_begins_behind_fork()
    ensures { Always ChildBeginsBehindFork }
{}

/// What stands at each next place: its thread goes on behind an action that it does alone, and a parent behind the End of its child.
pub fn next_places()
    ensures { Always NextPlaces }
{}

/// The actions of a child and of those that stem from it stand together behind its Fork, its End last.
pub fn child_stands_together()
    ensures { Always ChildStandsTogether }
{}

/// A child's whole list stands before what its parent does after the Fork.
pub fn child_stands_before_parent()
    ensures { Always ChildStandsBeforeParent }
{}

/// The forks of a thread have the ordinals 1, 2, and so on, in their order.
pub fn forks_are_in_order()
    ensures { Always ForksAreInOrder }
{}

/// A Fork is at least as many actions from the beginning as its ordinal says.
pub fn ordinal_is_within()
    ensures { Always OrdinalIsWithin }
{}

/// Each child has one Fork.
pub fn forked_once()
    ensures { Always ForkedOnce }
{}

/// Each thread that acts has an End.
pub fn each_thread_ends()
    ensures { Always EachThreadEnds }
{}

/// A thread does nothing behind its End, and so ends once.
pub fn end_is_last()
    ensures { Always EndIsLast }
{}

/// A Join is of a child that this thread forked, and that has ended before in the list.
pub fn join_stands_behind_child()
    ensures { Always JoinStandsBehindChild }
{}

/// A Join is of the newest child that is not joined.
pub fn joins_the_newest()
    ensures { Always JoinsTheNewest }
{}

/// Each child is joined by the thread that forked it.
pub fn each_child_is_joined()
    ensures { Always EachChildIsJoined }
{}

/// No child is joined twice.
pub fn joined_once()
    ensures { Always JoinedOnce }
{}

/// Directly before an allocation that the quota does not cover stand its dummies, in a tree with no allocation in it.
pub fn trees_stand_before()
    ensures { AlwaysWithin TreesStandBefore }
{}

/// Each Dummy is of the tree of an allocation that the quota does not cover.
pub fn dummies_are_of_trees()
    ensures { AlwaysWithin DummiesAreOfTrees }
{}

/// No action is of the trees of two allocations.
pub fn trees_are_apart()
    ensures { AlwaysWithin TreesAreApart }
{}

/// Whatever part of the list is done, a large allocation is done only after its whole tree.
pub fn trees_are_done_first()
    ensures { AlwaysWithin TreesAreDoneFirst }
{}

/// Whatever part of the list is done, of two live threads the one whose label is before the other's acts next
/// earlier in the list.
pub fn labels_follow_the_list()
    ensures { Always LabelsFollowTheList }
{}

/// Whatever part of the list is done, the first action that is not done is the next one of a live thread.
pub fn first_missing_is_next()
    ensures { Always FirstMissingIsNext }
{}

/// The peak is the greatest sum of the weights of a prefix.
pub fn peak_is_highest()
    ensures { (l : List Action) → PeakIsHighest l }
{}

/// Whatever part of the list is done, a live thread has a first action that is not done.
pub fn live_has_next()
    ensures { Always LiveHasNext }
{}

/// The run of a tree of dummies has the actions of the tree's shape.
pub fn tree_runs_as_shaped()
    ensures { TreeRunsAsShaped }
{}

/// A Fork takes the words of the child's record block.
pub fn forks_take_records()
    ensures { Always ForksTakeRecords }
{}

/// The End of a forked thread gives the words of its record block back.
pub fn child_ends_give_back()
    ensures { Always ChildEndsGiveBack }
{}

/// The End of the root weighs nothing.
pub fn root_end_is_weightless()
    ensures { Always RootEndIsWeightless }
{}

/// A Dummy weighs nothing.
pub fn dummies_are_weightless()
    ensures { Always DummiesAreWeightless }
{}

/// Whatever part of the list is done, where the End of a thread is done, all of it is, and all of those that stem from it.
pub fn end_means_all()
    ensures { Always EndMeansAll }
{}

/// Whatever part of the list is done, where the root's End is done, everything is.
pub fn root_end_means_all()
    ensures { Always RootEndMeansAll }
{}

/// Whatever part of the list is done, the threads that a live one stems from are live.
pub fn parents_are_live()
    ensures { Always ParentsAreLive }
{}

/// Whatever part of the list is done, where a thread's next action is the Join of a child, nothing that stems from a later
/// fork of the thread is live.
pub fn joins_the_last_live()
    ensures { Always JoinsTheLastLive }
{}

/// Whatever part of the list is done, the next place of a thread is that whose index is the number of its actions done.
pub fn next_is_of_its_index()
    ensures { Always NextIsOfItsIndex }
{}

/// Whatever part of the list is done, the thread of the first action that is not done stands before all other live threads.
pub fn first_missing_goes_first()
    ensures { Always FirstMissingGoesFirst }
{}

/// Whatever part of the list is done, the thread of the first action that is not done does not wait for a child.
pub fn first_missing_never_waits()
    ensures { Always FirstMissingNeverWaits }
{}
