ghost use Rattle.deque_machine.specs.Laws.{InEachSetting};
ghost use Rattle.ready_machine.specs.ReplayLaws.{StepsAreEvents, ReplaysAreRuns, ReadyOneWay, ReadyOnePlay, ReadyPlayedIsPlay};

/// What is computed of an event at a lawful ready list is a case of the machine.
pub fn steps_are_events()
    ensures { InEachSetting StepsAreEvents }
{}

/// What is replayed is a run.
pub fn replays_are_runs()
    ensures { InEachSetting ReplaysAreRuns }
{}

/// At a lawful ready list an event of a worker leads to one moment.
pub fn one_way()
    ensures { InEachSetting ReadyOneWay }
{}

/// A list of words picks one play.
pub fn one_play()
    ensures { InEachSetting ReadyOnePlay }
{}

/// What the computed play answers is the play.
pub fn played_is_play()
    ensures { InEachSetting ReadyPlayedIsPlay }
{}
