ghost use Rattle.flat_threads.specs.Laws.{StepsLeaveLess, WaysLeaveLess, WaysStayWithMoreTurns, WaysTakeTurns, RowsStay, ThreadsComeAlong};
ghost use Rattle.flat_threads.specs.Laws.{ThreadsAreInState, ThreadsAreInLaterState};
ghost use Rattle.flat_threads.specs.Laws.{WordsStay, MarksSayNothing, OtherFramesStay, ThreadsGoTheirWays};

/// After a step of a thread less is left to do.
pub fn steps_leave_less()
    ensures { StepsLeaveLess }
{}

/// After each step of a way less is left to do.
pub fn ways_leave_less()
    ensures { WaysLeaveLess }
{}

/// With more turns a thread goes the same way.
pub fn ways_stay_with_more_turns()
    ensures { WaysStayWithMoreTurns }
{}

/// No turn comes back along a way.
pub fn ways_take_turns()
    ensures { WaysTakeTurns }
{}

/// A way leaves the row as long as it was, with as many words.
pub fn rows_stay()
    ensures { RowsStay }
{}

/// A way of a thread over slots is one of the thread in the depth-first run: a later point of it, with the same open children.
pub fn threads_come_along()
    ensures { ThreadsComeAlong }
{}

/// A thread that goes on shows the state of the depth-first run that it is in by its row and its turns.
pub fn threads_are_in_state()
    ensures { ThreadsAreInState }
{}

/// With the row and the turns of the end of a way a thread is in the state there.
pub fn threads_are_in_later_state()
    ensures { ThreadsAreInLaterState }
{}

/// A way leaves a thread as many words as it has.
pub fn words_stay()
    ensures { WordsStay }
{}

/// Marks of lines are neither lines nor faults.
pub fn marks_say_nothing()
    ensures { MarksSayNothing }
{}

/// A way leaves the frames that are no statements as they are.
pub fn other_frames_stay()
    ensures { OtherFramesStay }
{}

/// A thread goes a way at once: it gets to a later one of its points, with the same open children.
pub fn threads_go_their_ways()
    ensures { ThreadsGoTheirWays }
{}
