ghost use Rattle.std.specs.Prelude.{ℕ};
ghost use Rattle.deque_machine.specs.Laws.{InEachSetting};
ghost use Rattle.moment_shown.specs.Cuts.{SettingAsideShows};
ghost use Rattle.moment_shown.specs.Laws.{RootIsTheOpening, ThreadsCountWithin, ActionsAreEvents, BirthsComeParentsFirst, BirthsMayFollow, GiveUpsAreEvents, HandingOverIsNoEvent, TheftsAreEvents, WaitsAreEvents};

/// A root that has done nothing, alone in a deque without an owner, is the opening moment.
pub fn root_is_the_opening()
    ensures { InEachSetting RootIsTheOpening }
{}

/// An action of a worker's top thread is an event of the machine.
pub fn actions_are_events()
    ensures { InEachSetting ActionsAreEvents }
{}

/// So is a deque that is given up.
pub fn give_ups_are_events()
    ensures { InEachSetting GiveUpsAreEvents }
{}

/// So is a thread that begins to wait.
pub fn waits_are_events()
    ensures { InEachSetting WaitsAreEvents }
{}

/// So is a theft.
pub fn thefts_are_events()
    ensures { InEachSetting TheftsAreEvents }
{}

/// A kept result that is handed to its parent changes no moment.
pub fn handing_over_is_no_event()
    ensures { InEachSetting HandingOverIsNoEvent }
{}

/// A deque of two that is cut in two shows the moment whose deque is cut so.
pub fn setting_aside_shows()
    ensures { InEachSetting SettingAsideShows }
{}

/// The births of the periods of a lawful moment come parents first.
pub fn births_come_parents_first()
    ensures { InEachSetting BirthsComeParentsFirst }
{}

/// So they may be added to a roster, one period after the other.
pub fn births_may_follow()
    ensures { InEachSetting BirthsMayFollow }
{}

/// A thread of the parts has done no more actions than are done.
pub fn threads_count_within()
    ensures { InEachSetting ThreadsCountWithin }
{}
