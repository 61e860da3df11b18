ghost use Rattle.std.specs.Prelude.{ℕ, List};
ghost use Rattle.open_periods.specs.Passed.Actions.{Action};
ghost use Rattle.open_periods.specs.Passed.Machine.{Setting};
ghost use Rattle.open_periods.specs.Passed.DequeMachineLaws.{InEachSetting};
ghost use Rattle.moment_laws.specs.Steps.{RunsGoOn, MovesGoOn, ActionsAreAdded, OthersAddNone, SumsGoOn};
ghost use Rattle.moment_laws.specs.Wanted.{ComingIsWanted, WaitIsWanted, GiveUpIsForced};
ghost use Rattle.moment_laws.specs.Results.{RootEndsOnce, RootLeavesItsResult, OthersEndNothing, ParentsAwait};
ghost use Rattle.moment_laws.specs.Orders.{OrderIsOfNoAccount};
ghost use Rattle.moment_laws.specs.Standing.{RootStands, SameStands, HandingsStand, ActionsStand, GiveUpsStand, WaitsStand, TheftsStand};
ghost use Rattle.moment_laws.specs.Readiness.{ReadyIsShown, FirstIsShown, SomeReadyIsShown, IdsAreShown, OwnersAreShown};

/// A run goes on with each event that may come at the moment that it reaches.
pub fn runs_go_on()
    ensures { (s : Setting) → RunsGoOn s }
{}

/// Its moves are those before, and behind them that of the last event, if it is one.
pub fn moves_go_on()
    ensures { (l : List Action) → MovesGoOn l }
{}

/// With an action one more stands in the books, no period begins, and the words in use rise by its weight.
pub fn actions_are_added()
    ensures { (s : Setting) → ActionsAreAdded s }
{}

/// With other events nothing is added to what is done, and only a theft begins a period.
pub fn others_add_none()
    ensures { (s : Setting) → OthersAddNone s }
{}

/// If the moves of a run sum up to the words in use, they do so with an event more.
pub fn sums_go_on()
    ensures { InEachSetting SumsGoOn }
{}

/// An action that may come is what the rules want of the worker.
pub fn coming_is_wanted()
    ensures { (s : Setting) → ComingIsWanted s }
{}

/// So is a wait.
pub fn wait_is_wanted()
    ensures { (s : Setting) → WaitIsWanted s }
{}

/// A worker has to give its deque up where the next action of its top thread takes more of the quota than its period has left.
pub fn give_up_is_forced()
    ensures { InEachSetting GiveUpIsForced }
{}

/// An action comes only where the root has not ended.
pub fn root_ends_once()
    ensures { InEachSetting RootEndsOnce }
{}

/// Behind the action with which the root ends its result is kept.
pub fn root_leaves_its_result()
    ensures { InEachSetting RootLeavesItsResult }
{}

/// A parent that stands directly below a thread which is before its End waits for its result.
pub fn parents_await()
    ensures { InEachSetting ParentsAwait }
{}

/// With an event that is no action no thread ends.
pub fn others_end_nothing()
    ensures { (s : Setting) → OthersEndNothing s }
{}

/// The order of the waiting threads and of the results is of no account.
pub fn order_is_of_no_account()
    ensures { (k : ℕ) (l : List Action) → OrderIsOfNoAccount k l }
{}

/// A root that has done nothing stands at the opening moment.
pub fn root_stands()
    ensures { InEachSetting RootStands }
{}

/// The same in another order stands at the same moment.
pub fn same_stands()
    ensures { (s : Setting) → SameStands s }
{}

/// So does a scheduler in which a kept result was handed to its parent.
pub fn handings_stand()
    ensures { InEachSetting HandingsStand }
{}

/// With an action of a worker's top thread a scheduler stands at the moment after it.
pub fn actions_stand()
    ensures { InEachSetting ActionsStand }
{}

/// So it does with a deque that is given up.
pub fn give_ups_stand()
    ensures { InEachSetting GiveUpsStand }
{}

/// With a thread that begins to wait.
pub fn waits_stand()
    ensures { InEachSetting WaitsStand }
{}

/// And with a theft, which begins a period.
pub fn thefts_stand()
    ensures { InEachSetting TheftsStand }
{}

/// A deque has a thread to steal where that of the moment has, whatever the items are.
pub fn ready_is_shown<T>()
    ensures { ReadyIsShown T }
{}

/// So the first that has one, in reach and as a word picks it, is the same.
pub fn first_is_shown<T>()
    ensures { FirstIsShown T }
{}

/// And some deque in reach has one where that of the moment has.
pub fn some_ready_is_shown<T>()
    ensures { SomeReadyIsShown T }
{}

/// The smallest free id is free at the moment, and each smaller one has a deque.
pub fn ids_are_shown<T>()
    ensures { IdsAreShown T }
{}

/// A worker owns no deque of the moment where it owns none of the list.
pub fn owners_are_shown<T>()
    ensures { OwnersAreShown T }
{}
