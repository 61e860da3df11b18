ghost use Rattle.deque_machine.specs.Laws.{InEachSetting};
ghost use Rattle.hall_interleavings.specs.Sequences.{SeatsMakeOneRun, EventsGoOn, OthersStay};

/// However the steps of the seats are interleaved, the hall shows at each time a moment of one run, whose events are theirs.
pub fn seats_make_one_run()
    ensures { InEachSetting SeatsMakeOneRun }
{}

/// Each event of a seat leads from a running state to a running state, by one event of the machine.
pub fn events_go_on()
    ensures { InEachSetting EventsGoOn }
{}

/// Each step of a seat that is no event leads to a running state at the same moment.
pub fn others_stay()
    ensures { InEachSetting OthersStay }
{}
