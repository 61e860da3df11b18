//! The seats of a hall, by the numbers of their workers.

ghost use Rattle.std.specs.Prelude.{◌+◌, ◌<◌, All, IfErr, IfSome, length, vec_len};
ghost use Rattle.turn_table.specs.Tables.{slot_count};
ghost use Rattle.hall_threads.specs.Passed.Seated.{IsIn, IsProgramOf};

use deque_list::DequeId;
use frame_code::Code;
use hall_slots::Event;
use hall_threads::{EventRefused, Hall, LeaveRefused, Seat};
use std::process::Abort;

/// Steals with a word if the seat owns no deque, and otherwise acts.
pub(crate) fn go_on(
    hall: &Hall,
    code: &Code,
    seat: &mut Seat,
    word: u64,
) -> Result<Event, EventRefused>
    requires program { IsProgramOf hall.now code.now }
    requires here { IsIn hall.now seat.old }
    ensures { IsIn hall.now seat.new }
{
    match seat.owns() {
        Some(_) => hall.act(code, seat),
        None => hall.steal(seat, word),
    }
}

/// The deque that a seat owns.
pub(crate) fn owned(rt: &impl Abort, hall: &Hall, seat: &Seat) -> DequeId
    requires { IsIn hall.now seat.now }
    ensures { result.0 + 2 < slot_count hall.now.row }
{
    let _ = hall;
    let Some(deque) = seat.owns() else {
        panic!(rt; "it owns no deque");
    };
    deque
}

/// Gives the deque of a seat up.
pub(crate) fn give_up(rt: &impl Abort, hall: &Hall, seat: &mut Seat) -> Result<Event, EventRefused>
    requires { IsIn hall.now seat.old }
    ensures { IsIn hall.now seat.new }
{
    let Some(_) = seat.owns() else {
        panic!(rt; "it owns no deque");
    };
    hall.give_up(seat)
}

/// Lets a seat leave into another.
pub(crate) fn left(hall: &Hall, seat: Seat, into: &mut Seat) -> Result<(), (Seat, LeaveRefused)>
    requires here { IsIn hall.now seat }
    requires into { IsIn hall.now into.old }
    ensures into { IsIn hall.now into.new }
    ensures here { IfErr result (λ back. IsIn hall.now back.0) }
{
    hall.leave(seat, into)
}

/// The place of the seat of a worker.
fn place_of(seats: &[Seat], worker: u32) -> Option<usize>
    ensures { IfSome result (λ at. at < length seats.now) }
{
    for at in 0..seats.len() {
        if seats[at].worker() == worker {
            return Some(at);
        }
    }
    None
}

/// Takes the seat at a place out.
fn taken_at(hall: &Hall, seats: &mut Vec<Seat>, at: usize) -> Seat
    requires place { at < vec_len seats.old }
    requires seats { All (IsIn hall.now) seats.old.items }
    ensures seat { IsIn hall.now result }
    ensures others { All (IsIn hall.now) seats.new.items }
{
    let _ = hall;
    seats.remove(at)
}

/// Takes the seat of a worker out.
pub(crate) fn taken(rt: &impl Abort, hall: &Hall, seats: &mut Vec<Seat>, worker: u32) -> Seat
    requires { All (IsIn hall.now) seats.old.items }
    ensures seat { IsIn hall.now result }
    ensures others { All (IsIn hall.now) seats.new.items }
{
    let at = place_of(seats, worker).expect(rt, "the worker is in");
    taken_at(hall, seats, at)
}

/// Puts a seat to the others.
pub(crate) fn put(rt: &impl Abort, hall: &Hall, seats: &mut Vec<Seat>, seat: Seat)
    requires seat { IsIn hall.now seat }
    requires others { All (IsIn hall.now) seats.old.items }
    ensures { All (IsIn hall.now) seats.new.items }
{
    let _ = hall;
    seats.push(seat).expect(rt, "memory");
}
