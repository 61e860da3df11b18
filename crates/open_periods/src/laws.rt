ghost use Rattle.std.specs.Prelude.{ℕ, List};
ghost use Rattle.depth_first_list.specs.Actions.{Action};
ghost use Rattle.open_periods.specs.Laws.{BeginningIsTold, ClosingIsTold, EachHasItsBook, ForkedIsLabelled, LabelsAreByBirths, LabelsStay, LabelsStayAtABeginning, NextIsNew, NoneTell, OneLabel, RunningIsTold};
ghost use Rattle.open_periods.specs.TableLaws.{ReplacedTwice};

/// No periods are no books.
pub fn none_tell()
    ensures { (k : ℕ) (l : List Action) → NoneTell k l }
{}

/// The book of a period stands at the place of its number.
pub fn each_has_its_book()
    ensures { (k : ℕ) (l : List Action) → EachHasItsBook k l }
{}

/// A period that begins has the next number, and its book is the last.
pub fn beginning_is_told()
    ensures { (k : ℕ) (l : List Action) → BeginningIsTold k l }
{}

/// The book of a period that runs an action has its place behind the others.
pub fn running_is_told()
    ensures { (k : ℕ) (l : List Action) → RunningIsTold k l }
{}

/// The book of a period that is closed is closed.
pub fn closing_is_told()
    ensures { (k : ℕ) (l : List Action) → ClosingIsTold k l }
{}

/// A thread has one label.
pub fn one_label()
    ensures { (k : ℕ) (l : List Action) → OneLabel k l }
{}

/// Threads keep their labels where a period begins.
pub fn labels_stay_at_a_beginning()
    ensures { LabelsStayAtABeginning }
{}

/// Threads keep their labels where a period forks more threads.
pub fn labels_stay()
    ensures { (k : ℕ) (l : List Action) → LabelsStay k l }
{}

/// The thread that a period would fork next has no label yet.
pub fn next_is_new()
    ensures { (k : ℕ) (l : List Action) → NextIsNew k l }
{}

/// A thread that was forked has the label of its parent with its ordinal behind.
pub fn forked_is_labelled()
    ensures { (k : ℕ) (l : List Action) → ForkedIsLabelled k l }
{}

/// A label by periods is the label by their births in the order of their numbers.
pub fn labels_are_by_births()
    ensures { (k : ℕ) (l : List Action) → LabelsAreByBirths k l }
{}

/// A period that changes twice has changed once.
pub fn replaced_twice()
    ensures { ReplacedTwice }
{}
