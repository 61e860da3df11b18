ghost use Rattle.std.specs.Prelude.{ℕ, List};
ghost use Rattle.depth_first_run.specs.Passed.Actions.{Action};
ghost use Rattle.depth_first_run.specs.Passed.Runs.{IsDepthFirst};
ghost use Rattle.depth_first_run.specs.Passed.Laws.{AlwaysWithin};
ghost use Rattle.deque_machine.specs.BookLaws.{Accounting, ArenaLaw, BeginningKeeps, ClosingKeeps, EndedHasAll, NoBooksAreLawful, OnePrefix, RunningKeeps};
ghost use Rattle.deque_machine.specs.Completeness.{ArenasWithRoomLast, ArenasWithTheBoundLast, ActionsSuffice, DequesSuffice};
ghost use Rattle.deque_machine.specs.Fronts.{FrontsGoOn};
ghost use Rattle.deque_machine.specs.Laws.{InEachSetting, OpeningIsLawful, EventsKeepLawful, ReachedIsLawful, BoundAlways, AheadIsMarked, MovesAreLive, MarkedBound, MarksNeverFall, ArenaRefuses, EndedDidAll, RunsEnd, RunsAreShort, ArenaNeverFills, DequesAtMost, SomebodysTurn, WantedMayCome, PlaysAreRuns, PlaysEnd, PlaysFinish};
ghost use Rattle.deque_machine.specs.StepLaws.{StepIsTheMachine, ReplayReaches, ReplayFails, OneWay, OnePlay, EndingsHaveCauses, PlayedIsPlay};

/// The books are lawful before anything is done.
pub fn no_books_are_lawful()
    ensures { (k : ℕ) (l : List Action) → NoBooksAreLawful k l }
{}

/// An open period that runs the next action of a live thread, within its quota, keeps the books lawful.
pub fn running_keeps()
    ensures { (k : ℕ) (l : List Action) → RunningKeeps k l }
{}

/// Closing a period keeps the books lawful.
pub fn closing_keeps()
    ensures { (k : ℕ) (l : List Action) → ClosingKeeps k l }
{}

/// A period that begins keeps the books lawful.
pub fn beginning_keeps()
    ensures { (k : ℕ) (l : List Action) → BeginningKeeps k l }
{}

/// There is just one longest part of the list, from its first action on, that is all done.
pub fn one_prefix()
    ensures { (l : List Action) → OnePrefix l }
{}

/// Under lawful books the words in use are at most the peak, and two quotas for each period that is ahead.
pub fn accounting()
    ensures { AlwaysWithin Accounting }
{}

/// Where lawful books have more words in use than the peak and two quotas for each of so many periods, more
/// periods are ahead.
pub fn arena_law()
    ensures { AlwaysWithin ArenaLaw }
{}

/// Where the root has ended, lawful books have each action of the list just once.
pub fn ended_has_all()
    ensures { (k : ℕ) (l : List Action) → IsDepthFirst k l → EndedHasAll k l }
{}

/// The opening moment has lawful order, lawful books and begun ahead.
pub fn opening_is_lawful()
    ensures { InEachSetting OpeningIsLawful }
{}

/// Each case of the machine keeps lawful order, lawful books and begun ahead.
pub fn events_keep_lawful()
    ensures { InEachSetting EventsKeepLawful }
{}

/// So each moment of each run has them.
pub fn reached_is_lawful()
    ensures { InEachSetting ReachedIsLawful }
{}

/// At each moment of each run the words in use are at most the peak, and two quotas for each period that is ahead.
pub fn bound_always()
    ensures { InEachSetting BoundAlways }
{}

/// At each moment of each run at most as many periods are ahead as are marked.
pub fn ahead_is_marked()
    ensures { InEachSetting AheadIsMarked }
{}

/// At each moment of each run the words in use are the sum of the moves.
pub fn moves_are_live()
    ensures { InEachSetting MovesAreLive }
{}

/// The high-water mark of each run is at most the peak, and two quotas for each marked period.
pub fn marked_bound()
    ensures { InEachSetting MarkedBound }
{}

/// Behind an action that an arena refuses which has room for the peak and two quotas for each of so many periods,
/// more periods would be ahead.
pub fn arena_refuses()
    ensures { InEachSetting ArenaRefuses }
{}

/// A run in which the root has ended did each action of the depth-first list just once.
pub fn ended_did_all()
    ensures { InEachSetting EndedDidAll }
{}

/// Where the quota covers a Fork, a run in which no give up is free has at most three events for each action of the
/// list, and one for each worker.
pub fn runs_end()
    ensures { InEachSetting RunsEnd }
{}

/// From a lawful moment on, however it was reached, such a run has at most five events for each action that is done at its end, and two
/// for each worker.
pub fn runs_are_short()
    ensures { InEachSetting RunsAreShort }
{}

/// An arena with room for all words that the list takes never fills.
pub fn arena_never_fills()
    ensures { InEachSetting ArenaNeverFills }
{}

/// There are never more deques than one and the Forks of the list.
pub fn deques_at_most()
    ensures { InEachSetting DequesAtMost }
{}

/// At a lawful moment what the rules want of a worker may come.
pub fn wanted_may_come()
    ensures { InEachSetting WantedMayCome }
{}

/// While the root has not ended, it is somebody's turn.
pub fn somebodys_turn()
    ensures { InEachSetting SomebodysTurn }
{}

/// A play is a run of the machine in which no give up is free.
pub fn plays_are_runs()
    ensures { InEachSetting PlaysAreRuns }
{}

/// What goes on from the front of a play is the play.
pub fn fronts_go_on()
    ensures { InEachSetting FrontsGoOn }
{}

/// Where the quota covers a Fork and there is a worker, each list of words picks a play, and it ends.
pub fn plays_end()
    ensures { InEachSetting PlaysEnd }
{}

/// With room for all words, actions and deques that the list can want, a play finishes.
pub fn plays_finish()
    ensures { InEachSetting PlaysFinish }
{}

/// With room for all words that the list takes, its arena stops no play.
pub fn arenas_with_room_last()
    ensures { InEachSetting ArenasWithRoomLast }
{}

/// Nor does it where the last moment has room for the peak and two quotas for each period ahead, with the next Alloc or Fork counted.
pub fn arenas_with_the_bound_last()
    ensures { InEachSetting ArenasWithTheBoundLast }
{}

/// With as many actions as the list has, the limit of actions stops no play.
pub fn actions_suffice()
    ensures { InEachSetting ActionsSuffice }
{}

/// With more deques than the list has Forks, the limit of deques stops no play.
pub fn deques_suffice()
    ensures { InEachSetting DequesSuffice }
{}

/// A mark is never lost: along a run as many periods are marked as before, or more.
pub fn marks_never_fall()
    ensures { InEachSetting MarksNeverFall }
{}

/// At a lawful moment the computed machine answers just the cases of the machine.
pub fn step_is_the_machine()
    ensures { InEachSetting StepIsTheMachine }
{}

/// A replay answers a moment just where the pairs are a run that reaches it.
pub fn replay_reaches()
    ensures { InEachSetting ReplayReaches }
{}

/// And a number just where the pair of this number is the first that is no case of the machine.
pub fn replay_fails()
    ensures { InEachSetting ReplayFails }
{}

/// At a lawful moment an event of a worker leads to one moment.
pub fn one_way()
    ensures { InEachSetting OneWay }
{}

/// A list of words picks one play.
pub fn one_play()
    ensures { InEachSetting OnePlay }
{}

/// A play that finishes has the End of the root. One that stops has a turn, after the words that it drew, whose event meets this stop.
pub fn endings_have_causes()
    ensures { InEachSetting EndingsHaveCauses }
{}

/// What the computed play answers is the play.
pub fn played_is_play()
    ensures { InEachSetting PlayedIsPlay }
{}
