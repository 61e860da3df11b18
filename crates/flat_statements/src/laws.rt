ghost use Rattle.flat_statements.specs.Laws.{MarksAreFrames, MachineFollowsTheThread, MachineEndsWithTheThread, WholeListsAreCode, CodeGoesOn};
ghost use Rattle.flat_statements.specs.Laws.{FramesBehindStay, ThreadStepsAreOfTheRun, ThreadWaysAreOfTheRun, TurnsStay};

/// The mark of the machine's place is the frames of the thread that it represents.
pub fn marks_are_frames()
    ensures { MarksAreFrames }
{}

/// The machine follows each step of a thread that it represents.
pub fn machine_follows_the_thread()
    ensures { MachineFollowsTheThread }
{}

/// Where the machine has gone on until it stopped, so has the thread.
pub fn machine_ends_with_the_thread()
    ensures { MachineEndsWithTheThread }
{}

/// The code of a whole list begins where a thread begins the list.
pub fn whole_lists_are_code()
    ensures { WholeListsAreCode }
{}

/// After a statement that a thread does by itself the next place is the code of what is left.
pub fn code_goes_on()
    ensures { CodeGoesOn }
{}

/// A step of a thread leaves the frames after its function as they are.
pub fn frames_behind_stay()
    ensures { FramesBehindStay }
{}

/// Each step of a thread over slots is the step of the depth-first run.
pub fn thread_steps_are_of_the_run()
    ensures { ThreadStepsAreOfTheRun }
{}

/// So many steps of a thread over slots are as many steps of the depth-first run, which do no action.
pub fn thread_ways_are_of_the_run()
    ensures { ThreadWaysAreOfTheRun }
{}

/// A step of a thread that has more turns is the same, unless there is no turn without them.
pub fn turns_stay()
    ensures { TurnsStay }
{}
