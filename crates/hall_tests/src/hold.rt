//! Seats that hold the list of a hall.

ghost use Rattle.std.specs.Prelude.{◌≡◌};
ghost use Rattle.hall_threads.specs.Passed.Held.{IsListHeld};
ghost use Rattle.hall_threads.specs.Passed.Seated.{IsIn, IsProgramOf};

use crate::halls::{entered, hall_of};
use frame_code::Code;
use hall_threads::{EventRefused, Hall, ListHeld, Seat};
use std::process::Abort;
use turn_table::Held;

/// Two children, of which the first one is forked.
const TWO: &str = "fn main() { par { print 1; } and { print 2; } print 3; }";

/// The list of a hall, held by a seat that owns no deque.
pub(crate) fn held<'a>(rt: &impl Abort, hall: &'a Hall, seat: Seat) -> ListHeld<'a>
    requires { IsIn hall.now seat }
    ensures held { IsListHeld result }
    ensures hall { result.hall.now ≡ hall.now }
{
    let None = seat.owns() else {
        panic!(rt; "it owns a deque");
    };
    match hall.hold_list(seat) {
        Ok(held) => held,
        Err(_) => panic!(rt; "the list is held"),
    }
}

/// The seat that did not get the list, and why not.
fn refused(rt: &impl Abort, hall: &Hall, seat: Seat) -> (Seat, Held)
    requires { IsIn hall.now seat }
    ensures { IsIn hall.now result.0 }
{
    let None = seat.owns() else {
        panic!(rt; "it owns a deque");
    };
    match hall.hold_list(seat) {
        Ok(held) => {
            held.put_back();
            panic!(rt; "the list is free")
        }
        Err(refused) => refused,
    }
}

/// Steals by the word 0, with a seat that owns no deque.
fn steal(rt: &impl Abort, hall: &Hall, seat: &mut Seat)
    requires { IsIn hall.now seat.old }
    ensures { IsIn hall.now seat.new }
{
    let None = seat.owns() else {
        panic!(rt; "it owns a deque");
    };
    if hall.steal(seat, 0).is_err() {
        panic!(rt; "it did not steal");
    }
}

/// Does the next event of a seat that owns a deque. Returns why there was none.
fn act(rt: &impl Abort, hall: &Hall, code: &Code, seat: &mut Seat) -> Option<EventRefused>
    requires program { IsProgramOf hall.now code.now }
    requires here { IsIn hall.now seat.old }
    ensures { IsIn hall.now seat.new }
{
    let Some(_) = seat.owns() else {
        panic!(rt; "it owns no deque");
    };
    hall.act(code, seat).err()
}

/// Does the next event of a seat that owns a deque.
fn do_next(rt: &impl Abort, hall: &Hall, code: &Code, seat: &mut Seat)
    requires program { IsProgramOf hall.now code.now }
    requires here { IsIn hall.now seat.old }
    ensures { IsIn hall.now seat.new }
{
    let none = act(rt, hall, code, seat);
    assert!(rt; none.is_none(), "it was refused");
}

#[test]
fn a_seat_steals_with_the_list_that_it_holds(rt: HostRuntime) {
    let (hall, _code, seat) = hall_of(&rt, rt.alloc(), TWO, 1);
    let held = held(&rt, &hall, seat);
    let (seat, answer) = held.steal(0);
    assert!(rt; answer.is_ok(), "it did not steal");
    assert!(rt; seat.owns().is_some(), "it owns no deque");
}

#[test]
fn a_seat_that_put_the_list_back_steals(rt: HostRuntime) {
    let (hall, _code, seat) = hall_of(&rt, rt.alloc(), TWO, 1);
    let held = held(&rt, &hall, seat);
    let mut seat = held.put_back();
    assert!(rt; seat.owns().is_none(), "it owns a deque");
    steal(&rt, &hall, &mut seat);
    assert!(rt; seat.owns().is_some(), "it owns no deque");
}

#[test]
fn one_seat_holds_the_list(rt: HostRuntime) {
    let (hall, _code, seat) = hall_of(&rt, rt.alloc(), TWO, 2);
    let mut first = seat;
    let second = entered(&rt, &hall, &mut first);
    let held_first = held(&rt, &hall, first);
    let (second, why) = refused(&rt, &hall, second);
    assert!(rt; why == Held { slot: 0, seen: 1 }, "another slot is held");
    let _first = held_first.put_back();
    let held_second = held(&rt, &hall, second);
    let _second = held_second.put_back();
}

/// The owner forks, ends a child and joins it in its own lane. It needs the list only for the end of the root.
#[test]
fn an_owner_needs_the_list_for_the_last_end_alone(rt: HostRuntime) {
    let (hall, code, seat) = hall_of(&rt, rt.alloc(), TWO, 2);
    let mut first = seat;
    steal(&rt, &hall, &mut first);
    let second = entered(&rt, &hall, &mut first);
    let held = held(&rt, &hall, second);
    do_next(&rt, &hall, &code, &mut first);
    do_next(&rt, &hall, &code, &mut first);
    do_next(&rt, &hall, &code, &mut first);
    let busy = act(&rt, &hall, &code, &mut first);
    assert!(rt;
        busy == Some(EventRefused::Busy(Held { slot: 0, seen: 1 })),
        "it took the list"
    );
    let (_second, answer) = held.steal(0);
    assert!(rt;
        answer == Err(EventRefused::Nothing),
        "there was something to steal"
    );
    do_next(&rt, &hall, &code, &mut first);
}
