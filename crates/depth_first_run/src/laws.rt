ghost use Rattle.depth_first_run.specs.Laws.{RunIsFixed, BeginningComesToTheWhole, StepsComeToTheSame, ItemsOnlyGrow, StepsNearTheEnd, StepsGiveTheNextAction, ActionsAreDepthFirst, LiveWordsNeverFallBelowZero};

/// Running a list of statements is running its statements one after another.
pub fn run_is_fixed()
    ensures { RunIsFixed }
{}

/// The whole run is what its beginning comes to, with the End of the root.
pub fn beginning_comes_to_the_whole()
    ensures { BeginningComesToTheWhole }
{}

/// A step in the middle of a run leaves what the run comes to.
pub fn steps_come_to_the_same()
    ensures { StepsComeToTheSame }
{}

/// The items that a run left stay, and more come behind them.
pub fn items_only_grow()
    ensures { ItemsOnlyGrow }
{}

/// Each step in the middle of a run brings its end nearer.
pub fn steps_near_the_end()
    ensures { StepsNearTheEnd }
{}

/// A step in the middle of a run gives its next action, where it gives one.
pub fn steps_give_the_next_action()
    ensures { StepsGiveTheNextAction }
{}

/// The actions of a run stand in depth-first order.
pub fn actions_are_depth_first()
    ensures { ActionsAreDepthFirst }
{}

/// The words in use never fall below 0.
pub fn live_words_never_fall_below_zero()
    ensures { LiveWordsNeverFallBelowZero }
{}
