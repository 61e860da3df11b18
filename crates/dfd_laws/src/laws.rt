ghost use Rattle.dfd_plays.specs.Async.{AsyncMakes};
ghost use Rattle.dfd_plays.specs.Play.{PlayMakes};
ghost use Rattle.dfd_plays.specs.Threads.{RunMakes};
ghost use Rattle.dfd_laws.specs.AsyncHeadline.{AsyncActionsSuffice, AsyncArenasStopLate, AsyncArenasSuffice, AsyncListsNeverFill};
ghost use Rattle.dfd_laws.specs.AsyncHeadline.{AsyncMomentsAreBounded, AsyncOfOneLastsAtThePeak, AsyncOfOneReportsThePeak, AsyncOfOneStaysLow};
ghost use Rattle.dfd_laws.specs.AsyncHeadline.{AsyncPlaysEnd, AsyncPlaysWithRoomFinish, AsyncStatusesWithRoom};
ghost use Rattle.dfd_laws.specs.Headline.{PlayActionsSuffice, ArenasStopLate, ArenasSuffice, PlayDequesSuffice, MomentsAreBounded, AllPlaysEnd};
ghost use Rattle.dfd_laws.specs.Headline.{PlaysWithRoomFinish, ReportsAreBounded, StatusesWithRoom, SummariesAreBounded};
ghost use Rattle.dfd_laws.specs.RunHeadline.{RunArenasStopLate, RunArenasSuffice, RunDequesSuffice, RunMomentsAreBounded};
ghost use Rattle.dfd_laws.specs.Laws.{VerifiedTrailsAreBounded, CommandsHaveAnAnswer, CommandsHaveRanges, LoopsArePlays, CommandsHaveOneAnswer, RecordedTrailsAreAccepted};

/// A command other than `run` has at most one answer to the bytes that it reads: one status and one text.
pub fn a_command_has_one_answer()
    ensures { CommandsHaveOneAnswer }
{}

/// A command has an answer to whatever bytes it reads.
pub fn a_command_has_an_answer()
    ensures { CommandsHaveAnAnswer }
{}

/// `loops` answers what `play` with the same numbers answers to the expansion of the bytes, if they have one. So the laws below on plays
/// hold for it, with the program of the expansion.
pub fn loops_are_plays()
    ensures { LoopsArePlays }
{}

/// The numbers of a command that was read are in the ranges of their options.
pub fn commands_have_ranges()
    ensures { CommandsHaveRanges }
{}

/// At each moment of each play the words in use are at most the depth-first peak, and two quotas for each period that by then ran an action
/// ahead of the prefix. The threads in the deques are in depth-first order, and no action was done twice. At most as many periods are ahead
/// as are marked at the end of the play.
pub fn moments_are_bounded()
    ensures { MomentsAreBounded }
{}

/// A play that comes to its end is reported with the lines and the finish of the depth-first run. Its high-water mark is at most the
/// depth-first peak, and two quotas for each period that the report counts as ahead.
pub fn reports_are_bounded()
    ensures { ReportsAreBounded PlayMakes }
{}

/// After each first part of the events of a run that threads come to the words in use are at most the depth-first peak, and two quotas for
/// each period that by then ran an action ahead of the prefix. The threads in the deques are in depth-first order, and no action was done
/// twice. At most as many periods are ahead there as are marked at the end of the run.
pub fn run_moments_are_bounded()
    ensures { RunMomentsAreBounded }
{}

/// `run` reports what comes to its end with the lines and the finish of the depth-first run. The high-water mark in the report is at most
/// the depth-first peak, and two quotas for each period that the report counts as ahead.
pub fn run_reports_are_bounded()
    ensures { ReportsAreBounded RunMakes }
{}

/// An arena with room for the depth-first peak and two quotas for each of so many periods stops a run by threads only where, at some moment on
/// the way, an action of a worker does not fit, and after it more periods would be ahead.
pub fn run_arenas_stop_late()
    ensures { RunArenasStopLate }
{}

/// With room for all words that the depth-first run takes, or for the bound after each action that may come next at each moment on the way, the
/// arena stops no run by threads.
pub fn run_arenas_suffice()
    ensures { RunArenasSuffice }
{}

/// With more deques than the depth-first run has Forks, their limit stops no run by threads.
pub fn run_deques_suffice()
    ensures { RunDequesSuffice }
{}

/// With room for all words that the depth-first run takes and for its actions, `run` ends well, or with the fault of the program, or at the
/// limit of deques.
pub fn run_statuses_with_room()
    ensures { StatusesWithRoom RunMakes }
{}

/// The high-water mark in a summary of `make` has the same bound.
pub fn summaries_are_bounded()
    ensures { SummariesAreBounded }
{}

/// An arena with room for the depth-first peak and two quotas for each of so many periods stops a play only at an action of the turn that
/// does not fit. After it, and after each other action that may come there and does not fit, more periods would be ahead.
pub fn arenas_stop_late()
    ensures { ArenasStopLate }
{}

/// With room for all words that the depth-first run takes, or for the bound after the next action, the arena stops no play.
pub fn arenas_suffice()
    ensures { ArenasSuffice }
{}

/// With as many actions as the depth-first run has, their limit stops no play.
pub fn actions_suffice()
    ensures { PlayActionsSuffice }
{}

/// With more deques than the depth-first run has forks, their limit stops no play.
pub fn deques_suffice()
    ensures { PlayDequesSuffice }
{}

/// With room for all words that the depth-first run takes, for its actions and for a deque a fork, a play finishes.
pub fn plays_with_room_finish()
    ensures { PlaysWithRoomFinish }
{}

/// With room for all words and all actions `play` ends well, with the program's fault, or at the limit of deques. So a call whose streams
/// do not fail has status 0, 6 or 9 then, or 10 if there is not enough memory.
pub fn statuses_with_room()
    ensures { StatusesWithRoom PlayMakes }
{}

/// Each command and program have a play, and it ends, after at most three events for each action of the depth-first run and one for each
/// worker.
pub fn plays_end()
    ensures { AllPlaysEnd }
{}

/// At each moment of each play of `async` the words in use are at most the depth-first peak, and two quotas for each period that by then
/// ran an action ahead of the prefix. The threads are in depth-first order, and no action was done twice.
pub fn async_moments_are_bounded()
    ensures { AsyncMomentsAreBounded }
{}

/// `async` reports a play that comes to its end with the lines and the finish of the depth-first run, and with a high-water mark within the
/// bound.
pub fn async_reports_are_bounded()
    ensures { ReportsAreBounded AsyncMakes }
{}

/// With one worker the actions of a play of `async` are, at each moment, the first ones of the depth-first run, in its order. No period is
/// marked, so none is ahead, and the words in use are at most the depth-first peak.
pub fn async_of_one_stays_low()
    ensures { AsyncOfOneStaysLow }
{}

/// If no limit stops such a play, `async` reports the lines and the finish of the depth-first run, no period as ahead, and the depth-first peak
/// as the high-water mark.
pub fn async_of_one_reports_the_peak()
    ensures { AsyncOfOneReportsThePeak }
{}

/// And an arena with room for the depth-first peak stops no play of `async` with one worker.
pub fn async_of_one_lasts_at_the_peak()
    ensures { AsyncOfOneLastsAtThePeak }
{}

/// No play of `async` ends for want of a place in the list.
pub fn async_lists_never_fill()
    ensures { AsyncListsNeverFill }
{}

/// An arena with room for the depth-first peak and two quotas for each of so many periods stops a play of `async` only at an action of the
/// turn that does not fit. After it, and after each other action that may come there and does not fit, more periods would be ahead.
pub fn async_arenas_stop_late()
    ensures { AsyncArenasStopLate }
{}

/// With room for all words that the depth-first run takes, or for the bound after the next action, the arena stops no play of `async`.
pub fn async_arenas_suffice()
    ensures { AsyncArenasSuffice }
{}

/// With as many actions as the depth-first run has, their limit stops no play of `async`.
pub fn async_actions_suffice()
    ensures { AsyncActionsSuffice }
{}

/// With room for all words that the depth-first run takes and for its actions, a play of `async` finishes.
pub fn async_plays_with_room_finish()
    ensures { AsyncPlaysWithRoomFinish }
{}

/// With this room `async` ends well or with the program's fault: with status 0 or 6.
pub fn async_statuses_with_room()
    ensures { AsyncStatusesWithRoom }
{}

/// Each command and program have a play of `async`, and it ends, after at most three events for each action of the depth-first run and one
/// for each worker.
pub fn async_plays_end()
    ensures { AsyncPlaysEnd }
{}

/// `verify` accepts what `trail` writes of a play that ends, well or with a fault.
pub fn recorded_trails_are_accepted()
    ensures { RecordedTrailsAreAccepted }
{}

/// What `verify` accepts is the trail of an accepted program. After each of its events the words in use are at most the depth-first peak,
/// and two quotas for each period that by then ran an action ahead of the prefix. The threads in the deques are in depth-first order, and
/// no action was done twice.
pub fn verified_trails_are_bounded()
    ensures { VerifiedTrailsAreBounded }
{}
