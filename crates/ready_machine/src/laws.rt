ghost use Rattle.deque_machine.specs.Laws.{InEachSetting};
ghost use Rattle.ready_machine.specs.Laws.{OpeningIsReady, EventsKeepReady, ReachedIsReady, BoundInReady, ReadyAheadIsMarked, ReadyMovesAreLive, ReadyMarkedBound, ReadyMarksNeverFall, ReadyArenaRefuses, ReadyArenaNeverFills, ReadyEndedDidAll, ReadyRunsEnd, ReadyRunsAreShort, AllButForksAreShared, ForksAreCut, MoversAgree, WantsAgree};
ghost use Rattle.ready_machine.specs.ReadyFronts.{ReadyFrontsGoOn, FrontsTakeTurns, FrontsAreRuns};
ghost use Rattle.ready_machine.specs.PlayLaws.{ReadyWantedMayCome, ReadySomebodysTurn, ReadyPlaysAreRuns, ReadyPlaysEnd, ReadyPlaysFinish, ListsNeverFill, ReadyActionsSuffice, ReadyArenasWithRoomLast, ReadyArenasWithTheBoundLast, ReadyEndingsHaveCauses};

/// The opening moment is a lawful ready list.
pub fn opening_is_ready()
    ensures { InEachSetting OpeningIsReady }
{}

/// Each event leads from a lawful ready list to a lawful one.
pub fn events_keep_ready()
    ensures { InEachSetting EventsKeepReady }
{}

/// So each moment of each run is a lawful ready list.
pub fn reached_is_ready()
    ensures { InEachSetting ReachedIsReady }
{}

/// At each moment of each run the words in use are at most the peak, and two quotas for each period that is ahead.
pub fn bound_in_ready()
    ensures { InEachSetting BoundInReady }
{}

/// At each moment of each run at most as many periods are ahead as are marked.
pub fn ahead_is_marked()
    ensures { InEachSetting ReadyAheadIsMarked }
{}

/// At each moment of each run the words in use are the sum of the moves.
pub fn moves_are_live()
    ensures { InEachSetting ReadyMovesAreLive }
{}

/// The high-water mark of each run is at most the peak, and two quotas for each marked period.
pub fn marked_bound()
    ensures { InEachSetting ReadyMarkedBound }
{}

/// A mark is never lost: along a run as many periods are marked as before, or more.
pub fn marks_never_fall()
    ensures { InEachSetting ReadyMarksNeverFall }
{}

/// Where an arena with room for the peak and two quotas for each of so many periods refuses an action, more periods would be ahead after
/// it.
pub fn arena_refuses()
    ensures { InEachSetting ReadyArenaRefuses }
{}

/// An arena with room for all words that the list takes never fills.
pub fn arena_never_fills()
    ensures { InEachSetting ReadyArenaNeverFills }
{}

/// A run in which the root has ended did each action of the depth-first list just once.
pub fn ended_did_all()
    ensures { InEachSetting ReadyEndedDidAll }
{}

/// Where the quota covers a Fork, a run in which no give up is free has at most three events for each action of the list, and one for each
/// worker.
pub fn runs_end()
    ensures { InEachSetting ReadyRunsEnd }
{}

/// From a lawful ready list on, however it was reached, such a run has at most five events for each action that is done at its end, and two
/// for each worker.
pub fn runs_are_short()
    ensures { InEachSetting ReadyRunsAreShort }
{}

/// Each event but a Fork is one of the machine of deques, with the same moment after it.
pub fn all_but_forks_are_shared()
    ensures { InEachSetting AllButForksAreShared }
{}

/// A Fork is the machine's of deques, after which the deque of two is cut in two, the lower one ready.
pub fn forks_are_cut()
    ensures { InEachSetting ForksAreCut }
{}

/// At a lawful ready list a worker can move just where the machine of deques says that it can.
pub fn movers_agree()
    ensures { InEachSetting MoversAgree }
{}

/// And the rules want of it just what those of deques want with the word 0: the first steal from 0 on takes the leftmost ready entry.
pub fn wants_agree()
    ensures { InEachSetting WantsAgree }
{}

/// What the rules want of a worker may come.
pub fn wanted_may_come()
    ensures { InEachSetting ReadyWantedMayCome }
{}

/// While the root has not ended, it is somebody's turn.
pub fn somebodys_turn()
    ensures { InEachSetting ReadySomebodysTurn }
{}

/// A play is a run of the machine in which no give up is free.
pub fn plays_are_runs()
    ensures { InEachSetting ReadyPlaysAreRuns }
{}

/// Where the quota covers a Fork and there is a worker, each list of words picks a play, and it ends.
pub fn plays_end()
    ensures { InEachSetting ReadyPlaysEnd }
{}

/// With room for all words and actions of the list, a play finishes.
pub fn plays_finish()
    ensures { InEachSetting ReadyPlaysFinish }
{}

/// No play ends for want of a place in the list.
pub fn lists_never_fill()
    ensures { InEachSetting ListsNeverFill }
{}

/// With as many actions as the list has, the limit of actions stops no play.
pub fn actions_suffice()
    ensures { InEachSetting ReadyActionsSuffice }
{}

/// With room for all words that the list takes, its arena stops no play.
pub fn arenas_with_room_last()
    ensures { InEachSetting ReadyArenasWithRoomLast }
{}

/// Nor does it where the last moment has room for the peak and two quotas for each period ahead, with the next Alloc or Fork counted.
pub fn arenas_with_the_bound_last()
    ensures { InEachSetting ReadyArenasWithTheBoundLast }
{}

/// A play that finishes has the End of the root. One that stops has a turn, after the words that it drew, whose event meets this stop.
pub fn endings_have_causes()
    ensures { InEachSetting ReadyEndingsHaveCauses }
{}

/// What goes on from the front of a play is the play.
pub fn fronts_go_on()
    ensures { InEachSetting ReadyFrontsGoOn }
{}

/// A front of a play with one turn more, which meets no stop, is a front of it.
pub fn fronts_take_turns()
    ensures { InEachSetting FrontsTakeTurns }
{}

/// The front of a play is a run of the machine in which no give up is free.
pub fn fronts_are_runs()
    ensures { InEachSetting FrontsAreRuns }
{}
