ghost use Rattle.deque_machine.specs.Machine.{Setting};
ghost use Rattle.deque_machine.specs.Laws.{InEachSetting};
ghost use Rattle.hall_machine.specs.Standing.{StepsAreARun};
ghost use Rattle.hall_machine.specs.Writing.{OwnersAreAtWork};
ghost use Rattle.hall_machine.specs.Seats.{CountsAreFew};
ghost use Rattle.hall_machine.specs.Stops.{FullArenasAreAhead};
ghost use Rattle.hall_machine.specs.Closing.{FirstHallStands, StatesMeetTheLaw, HallsAreBounded, SeatsWithAllAreAlone, ClosedGiveOneRun};

/// Steps that lead to a moment are a run of the machine that reaches it.
pub fn steps_are_a_run()
    ensures { (s : Setting) → StepsAreARun s }
{}

/// Who owns a deque is at work: in its lane a thread is on top, and a period runs.
pub fn owners_are_at_work()
    ensures { (s : Setting) → OwnersAreAtWork s }
{}

/// An action that the arena refuses would leave more periods ahead than the arena has room for.
pub fn full_arenas_are_ahead()
    ensures { InEachSetting FullArenasAreAhead }
{}

/// The law of the hall holds if it begins, with one seat that has all places.
pub fn first_hall_stands()
    ensures { InEachSetting FirstHallStands }
{}

/// It holds of slots that hold a hall in its running state.
pub fn states_meet_the_law()
    ensures { (s : Setting) → StatesMeetTheLaw s }
{}

/// In a running state the words in use are within the bound of the run.
pub fn halls_are_bounded()
    ensures { InEachSetting HallsAreBounded }
{}

/// A seat with all places is the only one.
pub fn seats_with_all_are_alone()
    ensures { (s : Setting) → SeatsWithAllAreAlone s }
{}

/// A closed hall gives the kept end, and the books and the moves of one run.
pub fn closed_give_one_run()
    ensures { InEachSetting ClosedGiveOneRun }
{}

/// The count word is above the limit by at most two for each worker.
pub fn counts_are_few()
    ensures { (s : Setting) → CountsAreFew s }
{}
