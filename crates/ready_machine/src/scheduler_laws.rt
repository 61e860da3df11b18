ghost use Rattle.deque_machine.specs.Laws.{InEachSetting};
ghost use Rattle.ready_machine.specs.Standing.{RootStandsReady, OneThreadEach, TwoAreCut, ReadyRunsGoOn, EntriesAreFew, OneOrTwo};

/// A root that has done nothing, alone and ready, stands at the opening moment.
pub fn root_stands_ready()
    ensures { InEachSetting RootStandsReady }
{}

/// Where an event came in the machine of deques that the rules of the ready list want, and each deque has one thread then, it came in the
/// ready list.
pub fn one_thread_each()
    ensures { InEachSetting OneThreadEach }
{}

/// Where the worker's deque has two threads then, it came in the ready list once that deque is cut in two.
pub fn two_are_cut()
    ensures { InEachSetting TwoAreCut }
{}

/// One of the two is so with each event that is wanted.
pub fn one_or_two()
    ensures { InEachSetting OneOrTwo }
{}

/// A run of the ready list goes on with each event that may come.
pub fn ready_runs_go_on()
    ensures { InEachSetting ReadyRunsGoOn }
{}

/// Where each thread of the list but the root holds the words of a record, there is at most one entry more than the words in use have
/// records.
pub fn entries_are_few()
    ensures { InEachSetting EntriesAreFew }
{}
