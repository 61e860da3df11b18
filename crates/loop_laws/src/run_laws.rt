ghost use Rattle.loop_laws.specs.RunLaws.{RunsDependOnTheStore, CallsDependOnTheArguments, PeaksDependOnTheStore, PeaksOfCallsDependOnTheArguments, IntegersLendNothing, WeightsAreTheChange, CallsOfIntegersGiveAllBack};

/// Statements that begin with the same store print and leave the same.
pub fn runs_depend_on_the_store()
    ensures { RunsDependOnTheStore }
{}

/// Calls that pass the same print and answer the same.
pub fn calls_depend_on_the_arguments()
    ensures { CallsDependOnTheArguments }
{}

/// Statements that begin with the same store take the same words at most.
pub fn peaks_depend_on_the_store()
    ensures { PeaksDependOnTheStore }
{}

/// Calls that pass the same take the same words at most.
pub fn peaks_of_calls_depend_on_the_arguments()
    ensures { PeaksOfCallsDependOnTheArguments }
{}

/// A call that passes integers alone gives no block back to its caller.
pub fn integers_lend_nothing()
    ensures { IntegersLendNothing }
{}

/// The words that statements take, less those that they give back, are what their thread holds more behind them.
pub fn weights_are_the_change()
    ensures { WeightsAreTheChange }
{}

/// A call that passes integers and answers one gives back all the words that it took.
pub fn calls_of_integers_give_all_back()
    ensures { CallsOfIntegersGiveAllBack }
{}
