//! The laws of what an owner writes.

ghost use Rattle.hall_parts.specs.Leaving.{OwnersMayLeave, WritersMayBeAnswered, StopsMayBeKept};
ghost use Rattle.hall_parts.specs.Quiet.{StatementsMayCome, WantsOfMemoryMayCome, NothingIsTaken};
ghost use Rattle.hall_parts.specs.Writing.{EventsMayCome};
ghost use Rattle.hall_parts.specs.Staying.{LanesStaySound, GivenUpStaysSound, SuspendedStaysSound};
ghost use Rattle.hall_parts.specs.Staying.{LeftStaysSound, RootStaysSound, WokenStaysSound, HandedStaysSound};
ghost use Rattle.hall_parts.specs.TakenOut.{NobodyWaits};
ghost use Rattle.hall_parts.specs.Writes.{WrittenHallsHold};

/// What an owner writes leads from a running state to a running state, and the law holds of the hall that is written: by one event of the
/// machine, with which it may leave too, be answered the end that is kept, or keep its stop; or by none, with statements, or if memory is wanting.
pub fn what_is_written_goes_on()
    ensures events { EventsMayCome }
    ensures leaves { OwnersMayLeave }
    ensures answers { WritersMayBeAnswered }
    ensures stops { StopsMayBeKept }
    ensures statements { StatementsMayCome }
    ensures memory { WantsOfMemoryMayCome }
    ensures nothing { NothingIsTaken }
    ensures halls { WrittenHallsHold }
{}

/// The parts stay sound: a lane alone or with the pool, and a lane with the list in which its deque has no owner, its thread waits, its result or
/// that of the root is kept, a thread is woken, or a result is handed over. If nothing is kept under the id of a thread, nobody waits for it.
pub fn what_is_written_stays_sound()
    ensures lanes { LanesStaySound }
    ensures given_up { GivenUpStaysSound }
    ensures suspended { SuspendedStaysSound }
    ensures left { LeftStaysSound }
    ensures root { RootStaysSound }
    ensures woken { WokenStaysSound }
    ensures handed { HandedStaysSound }
    ensures waits { NobodyWaits }
{}
