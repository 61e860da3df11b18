//! Scripts of calls by the seats of a hall, and what each call answers.

ghost use Rattle.std.specs.Prelude.{◌≡◌, All, IfSome, None};
ghost use Rattle.hall_threads.specs.Passed.Seated.{IsIn, IsProgramOf};

use crate::hold::held;
use crate::seats::{give_up, go_on, left, put, taken};
use frame_code::Code;
use hall_slots::Event;
use hall_threads::{EventRefused, Hall, Seat};
use play_rules::RunEnd;
use std::fmt::{Debug, Write};
use std::process::Abort;

/// A call of a script: the worker whose seat it is of, what it does, and a number that it takes.
#[derive(Clone, Copy)]
struct Call<'a> {
    worker: u32,
    verb: &'a str,
    number: u32,
}

/// The number that a word says; 0 where it says none.
pub(crate) fn number_of(word: Option<&str>) -> u32 {
    match word {
        Some(word) => word.parse::<u32>().unwrap_or(0),
        None => 0,
    }
}

/// The call that a line of a script says.
fn call_of(line: &str) -> Call<'_> {
    let mut words = line.split_whitespace();
    Call {
        worker: number_of(words.next()),
        verb: words.next().unwrap_or(""),
        number: number_of(words.next()),
    }
}

/// Adds a piece to a text.
pub(crate) fn add(rt: &impl Abort, text: &mut String, piece: &str) {
    text.push_str(piece).expect(rt, "memory");
}

/// Adds a word to a text, and numbers after it.
pub(crate) fn tell(rt: &impl Abort, text: &mut String, word: &str, numbers: &[u32]) {
    add(rt, text, word);
    for number in numbers {
        write!(text, " {number}").expect(rt, "memory");
    }
}

/// Adds a value to a text.
pub(crate) fn show(rt: &impl Abort, text: &mut String, value: &impl Debug) {
    write!(text, "{value:?}").expect(rt, "memory");
}

/// Writes which end is kept.
fn tell_end(rt: &impl Abort, text: &mut String, end: RunEnd) {
    add(rt, text, "halted ");
    show(rt, text, &end);
}

/// Writes what a seat did: numbers of deques and periods, names of threads as two numbers, and of actions as three.
fn tell_event(rt: &impl Abort, text: &mut String, event: Event) {
    match event {
        Event::Stole { deque, period } => tell(rt, text, "stole", &[deque.0, period]),
        Event::Did(id) => tell(rt, text, "did", &[id.by.period, id.by.nth, id.index]),
        Event::Suspended(id) => tell(rt, text, "suspended", &[id.period, id.nth]),
        Event::GaveUp(deque) => tell(rt, text, "gave up", &[deque.0]),
        Event::Halted(end) => tell_end(rt, text, end),
    }
}

/// Writes what an event answers.
pub(crate) fn tell_answer(rt: &impl Abort, text: &mut String, answer: Result<Event, EventRefused>) {
    match answer {
        Ok(event) => tell_event(rt, text, event),
        Err(refused) => show(rt, text, &refused),
    }
}

/// Keeps the stop that a seat found, and writes the end that is kept then.
fn halt(rt: &impl Abort, text: &mut String, hall: &Hall, seat: &mut Seat)
    requires { IsIn hall.now seat.old }
    ensures { IsIn hall.now seat.new }
{
    let Some(stop) = seat.found() else {
        panic!(rt; "it found no stop");
    };
    match hall.halt(seat, stop) {
        Ok(end) => tell_end(rt, text, end),
        Err(held) => show(rt, text, &held),
    }
}

/// Lets a worker enter by a seat, and writes its number.
fn enter(rt: &impl Abort, text: &mut String, hall: &Hall, by: &mut Seat) -> Option<Seat>
    requires { IsIn hall.now by.old }
    ensures by { IsIn hall.now by.new }
    ensures made { IfSome result (λ made. IsIn hall.now made) }
{
    match hall.enter(by) {
        Ok(made) => {
            tell(rt, text, "entered", &[made.worker()]);
            Some(made)
        }
        Err(refused) => {
            show(rt, text, &refused);
            None
        }
    }
}

/// Lets a seat leave into that of a worker, and writes that it did.
fn leave(
    rt: &impl Abort,
    text: &mut String,
    hall: &Hall,
    seats: &mut Vec<Seat>,
    seat: Seat,
    worker: u32,
)
    requires seat { IsIn hall.now seat }
    requires others { All (IsIn hall.now) seats.old.items }
    ensures { All (IsIn hall.now) seats.new.items }
{
    let mut into = taken(rt, hall, seats, worker);
    match left(hall, seat, &mut into) {
        Ok(()) => add(rt, text, "left"),
        Err((back, _)) => {
            add(rt, text, "stays");
            put(rt, hall, seats, back);
        }
    }
    put(rt, hall, seats, into);
}

/// Does a call of one seat, and writes what it answers. A worker may enter by it.
fn call_one(
    rt: &impl Abort,
    text: &mut String,
    hall: &Hall,
    code: &Code,
    seat: &mut Seat,
    call: Call,
) -> Option<Seat>
    requires program { IsProgramOf hall.now code.now }
    requires here { IsIn hall.now seat.old }
    ensures here { IsIn hall.now seat.new }
    ensures made { IfSome result (λ made. IsIn hall.now made) }
{
    match call.verb {
        "enter" => return enter(rt, text, hall, seat),
        "give-up" => tell_answer(rt, text, give_up(rt, hall, seat)),
        "halt" => halt(rt, text, hall, seat),
        _ => tell_answer(rt, text, go_on(hall, code, seat, u64::from(call.number))),
    }
    None
}

/// Does a call, and writes what it answers.
fn do_call(
    rt: &impl Abort,
    text: &mut String,
    hall: &Hall,
    code: &Code,
    seats: &mut Vec<Seat>,
    call: Call,
)
    requires program { IsProgramOf hall.now code.now }
    requires seats { All (IsIn hall.now) seats.old.items }
    ensures { All (IsIn hall.now) seats.new.items }
{
    let mut seat = taken(rt, hall, seats, call.worker);
    if call.verb == "leave" {
        leave(rt, text, hall, seats, seat, call.number);
        return;
    }
    if let Some(made) = call_one(rt, text, hall, code, &mut seat, call) {
        put(rt, hall, seats, made);
    }
    put(rt, hall, seats, seat);
}

/// What a seat answers that goes on while another one holds the list.
fn beside(
    rt: &impl Abort,
    hall: &Hall,
    code: &Code,
    holder: Seat,
    seat: &mut Seat,
) -> (Seat, Result<Event, EventRefused>)
    requires program { IsProgramOf hall.now code.now }
    requires holder { IsIn hall.now holder }
    requires here { IsIn hall.now seat.old }
    ensures holder { IsIn hall.now result.0 }
    ensures here { IsIn hall.now seat.new }
{
    let held = held(rt, hall, holder);
    let answer = go_on(hall, code, seat, 0);
    (held.put_back(), answer)
}

/// Lets the seat of a worker go on while that of a holder holds the list, and writes what it answers.
fn do_beside(
    rt: &impl Abort,
    text: &mut String,
    hall: &Hall,
    code: &Code,
    seats: &mut Vec<Seat>,
    holder: u32,
    worker: u32,
)
    requires program { IsProgramOf hall.now code.now }
    requires seats { All (IsIn hall.now) seats.old.items }
    ensures { All (IsIn hall.now) seats.new.items }
{
    let holder = taken(rt, hall, seats, holder);
    let mut seat = taken(rt, hall, seats, worker);
    let (holder, answer) = beside(rt, hall, code, holder, &mut seat);
    tell_answer(rt, text, answer);
    put(rt, hall, seats, holder);
    put(rt, hall, seats, seat);
}

/// Does the call of a line, in whose front another worker may hold the list, and writes what it answers.
fn do_line(
    rt: &impl Abort,
    text: &mut String,
    hall: &Hall,
    code: &Code,
    seats: &mut Vec<Seat>,
    line: &str,
)
    requires program { IsProgramOf hall.now code.now }
    requires seats { All (IsIn hall.now) seats.old.items }
    ensures { All (IsIn hall.now) seats.new.items }
{
    match line.split_once(':') {
        Some((front, rest)) => {
            let holder = call_of(front).worker;
            do_beside(rt, text, hall, code, seats, holder, call_of(rest).worker);
        }
        None => do_call(rt, text, hall, code, seats, call_of(line)),
    }
}

/// Does the calls of a script, which are apart by a `/`, and writes what each of them answers.
pub(crate) fn do_calls(
    rt: &impl Abort,
    text: &mut String,
    hall: &Hall,
    code: &Code,
    seats: &mut Vec<Seat>,
    script: &str,
)
    requires program { IsProgramOf hall.now code.now }
    requires seats { All (IsIn hall.now) seats.old.items }
    ensures { All (IsIn hall.now) seats.new.items }
{
    for line in script.split('/') {
        if !line.trim().is_empty() {
            do_line(rt, text, hall, code, seats, line);
            add(rt, text, ", ");
        }
    }
}
