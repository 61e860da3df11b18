//! The law of what an owner sees.
ghost use Rattle.hall_owner.specs.Laws.{OneEvent};

/// One lane and one list show one event.
pub fn one_event()
    ensures { OneEvent }
{}
