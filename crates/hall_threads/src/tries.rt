//! One try of a worker.

ghost use Rattle.std.specs.Prelude.{◌≡◌, ◌+◌, ℕ, None, Some};
ghost use Rattle.worker_entry.specs.Seated.{IsIn, IsProgramOf};
ghost use Rattle.worker_entry.specs.Thieves.{IsNotBusy};
ghost use Rattle.hall_threads.specs.Trying.{Tries, answer_as, draws, GoesOn, IsNotHeld};
ghost use Rattle.hall_threads.specs.Working.{HasSeen, IsSameWorker};
ghost use Rattle.work_loop.specs.Tries.{EndsAs};

use crate::answer::Answer;
use hall_slots::Event;
use play_rules::{RunEnd, Stop};
use scheduler_state::Choices;
use thread_frames::Code;
use work_loop::Tried;
use worker_entry::{EventRefused, Hall, Seat};

/// Keeps the stop that a seat found.
fn keep(hall: &Hall, seat: &mut Seat, stop: Stop) -> Answer
    requires here { IsIn hall.now seat.old }
    requires found { seat.old.stop ≡ Some stop }
    ensures here { IsIn hall.now seat.new }
    ensures tries { (word : ℕ) → Tries hall.now word seat.old seat.new result }
    ensures lone { seat.old.places ≡ hall.now.workers → IsNotHeld result }
{
    match hall.halt(seat, stop) {
        Ok(end) => Answer::Over(end),
        Err(held) => Answer::Refused(EventRefused::Busy(held)),
    }
}

/// Lets a seat act if it owns a deque, and otherwise steal by the next word.
fn go_on<C: Choices>(
    hall: &Hall,
    code: &Code,
    seat: &mut Seat,
    choices: &mut C,
) -> Result<Event, EventRefused>
    requires program { IsProgramOf hall.now code.now }
    requires here { IsIn hall.now seat.old }
    requires none { seat.old.stop ≡ None }
    ensures here { IsIn hall.now seat.new }
    ensures goes { GoesOn hall.now (C.coming choices.old 0) seat.old seat.new result }
    ensures words { (i : ℕ) → C.coming choices.new i ≡ C.coming choices.old (i + draws seat.old) }
    ensures lone { seat.old.places ≡ hall.now.workers → IsNotBusy result }
{
    match seat.owns() {
        Some(_) => hall.act(code, seat),
        None => {
            let word = choices.word();
            hall.steal(seat, word)
        }
    }
}

/// What an event or its refusal is as the answer of a try.
fn answer_of(answer: Result<Event, EventRefused>) -> Answer
    ensures { result ≡ answer_as answer }
{
    match answer {
        Ok(event) => Answer::Did(event),
        Err(EventRefused::Busy(held)) => Answer::Refused(EventRefused::Busy(held)),
        Err(EventRefused::Nothing) => Answer::Refused(EventRefused::Nothing),
        Err(EventRefused::Over(end)) => Answer::Over(end),
        Err(EventRefused::Stopped(stop)) => Answer::Found(stop),
    }
}

/// Makes one try, which is one call of a seat: it keeps the stop that it found before; or it acts if it owns a deque, and otherwise steals by the
/// next word.
pub(crate) fn make_try<C: Choices>(
    hall: &Hall,
    code: &Code,
    seat: &mut Seat,
    choices: &mut C,
) -> Answer
    requires program { IsProgramOf hall.now code.now }
    requires here { IsIn hall.now seat.old }
    ensures here { IsIn hall.now seat.new }
    ensures tries { Tries hall.now (C.coming choices.old 0) seat.old seat.new result }
    ensures words { (i : ℕ) → C.coming choices.new i ≡ C.coming choices.old (i + draws seat.old) }
    ensures lone { seat.old.places ≡ hall.now.workers → IsNotHeld result }
{
    if let Some(stop) = seat.found() {
        return keep(hall, seat, stop);
    }
    answer_of(go_on(hall, code, seat, choices))
}

/// For how many turns of loops and calls a thread goes on before its worker gives the lane back for a while: some 40 microseconds, so that a
/// thief need not wait for long, and the time in which the lane is free costs about a thirtieth.
const TURNS_AT_ONCE: u32 = 1_000;

/// Lets the top thread of a worker that owns a deque go on without an event, and says whether it is still on its way to its next action.
fn is_on_its_way(hall: &Hall, code: &Code, seat: &mut Seat) -> bool
    requires program { IsProgramOf hall.now code.now }
    requires here { IsIn hall.now seat.old }
    ensures here { IsIn hall.now seat.new }
    ensures same { IsSameWorker seat.old seat.new }
{
    if seat.owns().is_none() || seat.found().is_some() {
        return false;
    }
    match hall.step_on(code, seat, TURNS_AT_ONCE) {
        Ok(came) => !came,
        Err(_) => false,
    }
}

/// Makes one try, and answers as a loop is told it. A worker whose top thread has a long way to its next action gives its lane back in between.
pub(crate) fn try_next<C: Choices>(
    hall: &Hall,
    code: &Code,
    seat: &mut Seat,
    choices: &mut C,
) -> Tried<RunEnd>
    requires program { IsProgramOf hall.now code.now }
    requires here { IsIn hall.now seat.old }
    ensures here { IsIn hall.now seat.new }
    ensures same { IsSameWorker seat.old seat.new }
    ensures ended { EndsAs result (HasSeen seat.new) }
{
    if is_on_its_way(hall, code, seat) {
        return Tried::Runs;
    }
    match make_try(hall, code, seat, choices) {
        Answer::Did(_) | Answer::Found(_) => Tried::Did,
        Answer::Refused(_) if seat.owns().is_some() => Tried::Waits,
        Answer::Refused(_) => Tried::Idles,
        Answer::Over(end) => Tried::Ended(end),
    }
}
