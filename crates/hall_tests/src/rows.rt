//! Rows of calls by seats, with what each call answers and what is left once the hall is closed.

ghost use Rattle.std.specs.Prelude.{◌≡◌, All, IfSome};
ghost use Rattle.hall_threads.specs.Passed.Seated.{IsIn, IsProgramOf};

use crate::halls::{Bounds, hall_within};
use crate::scripts::{add, do_calls, number_of, show, tell};
use crate::seats::{put, taken};
use hall_threads::{CloseRefused, Closing, Hall, Seat};
use std::alloc::Global;
use std::process::Abort;

/// A row: the quota, the workers, the words of the arena and the most deques; the calls up to a close, and those between it and a second one; what
/// is told; and the program.
#[derive(Drop)]
struct Row<'a> {
    numbers: &'a str,
    calls: &'a str,
    later: &'a str,
    want: &'a str,
    text: &'a str,
}

/// The parts of a row; None in front of the first row.
fn row_of(row: &str) -> Option<Row<'_>> {
    let mut parts = row.split('|');
    Some(Row {
        numbers: parts.next()?,
        calls: parts.next()?,
        later: parts.next()?,
        want: parts.next()?.trim(),
        text: parts.next()?,
    })
}

/// The numbers of a row.
fn bounds_of(numbers: &str) -> Bounds {
    let mut words = numbers.split_whitespace();
    Bounds {
        k: number_of(words.next()),
        workers: number_of(words.next()),
        arena: number_of(words.next()),
        limit: 1_000,
        most: number_of(words.next()),
    }
}

/// Writes what is left of a run: its end, how many periods began and were marked, and whether the result of the root is there.
fn tell_closing(rt: &impl Abort, text: &mut String, closing: &Closing) {
    add(rt, text, "closed ");
    show(rt, text, &closing.end);
    tell(
        rt,
        text,
        " periods",
        &[closing.books.periods(), closing.books.ahead()],
    );
    add(
        rt,
        text,
        if closing.root.is_some() {
            " root"
        } else {
            " no root"
        },
    );
}

/// The smallest number of a worker that is in.
fn first_of(seats: &[Seat]) -> u32 {
    let mut first = u32::MAX;
    for seat in seats {
        first = first.min(seat.worker());
    }
    first
}

/// Closes a hall with the seat of the smallest number, and writes what is left of the run, or why it is not closed: another seat has places. Then
/// the hall comes back.
fn close(rt: &impl Abort, text: &mut String, hall: Hall, seats: &mut Vec<Seat>) -> Option<Hall>
    requires { All (IsIn hall) seats.old.items }
    ensures { IfSome result (λ back. (back ≡ hall) × All (IsIn hall) seats.new.items) }
{
    let worker = first_of(seats);
    let seat = taken(rt, &hall, seats, worker);
    match hall.close(seat) {
        Ok(closing) => {
            tell_closing(rt, text, &closing);
            None
        }
        Err((back, seat, why @ CloseRefused::StillIn { .. })) => {
            show(rt, text, &why);
            add(rt, text, ", ");
            put(rt, &back, seats, seat);
            Some(back)
        }
        Err(_) => panic!(rt; "no end is kept"),
    }
}

/// What a row tells.
fn told(rt: &impl Abort, alloc: Global, row: &Row) -> String {
    let (hall, code, seat) = hall_within(rt, alloc, row.text, bounds_of(row.numbers));
    let mut text = String::new(alloc);
    let mut seats = Vec::new(alloc);
    put(rt, &hall, &mut seats, seat);
    do_calls(rt, &mut text, &hall, &code, &mut seats, row.calls);
    if let Some(hall) = close(rt, &mut text, hall, &mut seats) {
        do_calls(rt, &mut text, &hall, &code, &mut seats, row.later);
        close(rt, &mut text, hall, &mut seats);
    }
    text
}

/// Each row tells what it has to.
fn tell_so(rt: &impl Abort, alloc: Global, rows: &str) {
    for row in rows.split('@') {
        if let Some(row) = row_of(row) {
            let got = told(rt, alloc, &row);
            assert!(rt; got.as_str() == row.want, "{got}");
        }
    }
}

/// One seat that gives its deque up, steals from it and has to wait; one that leaves its deque to another; two that stop; one that acts while
/// another holds the list, for a run and for a run that needs the pool alone; a child that has a fault, after which its parent, faulted too,
/// gives its own blocks back at the Join; and a root that has a fault beside its child, whose End, with one line, leaves in the list a result
/// with a block: the Join takes it from there and gives the block back.
const ROWS: &str = "
@ 16 1 1024 64 | 0 steal/0 act/0 give-up/0 steal/0 act/0 steal/0 act/0 act/0 act/0 steal | |
stole 0 1, did 0 0 0, gave up 0, stole 1 2, suspended 0 0, stole 0 3, did 1 0 0, did 0 0 1, did 0 0 2, \
Over(Finished(Done)), closed Finished(Done) periods 3 1 root |
fn main() { par { print 1; } and { print 2; } print 3; }
@ 16 2 1024 64 | 0 steal/0 act/0 enter/0 leave 1/1 steal/1 act/1 steal/1 act/1 act/1 act | |
stole 0 1, did 0 0 0, entered 1, left, stole 1 2, suspended 0 0, stole 0 3, did 1 0 0, did 0 0 1, did 0 0 2, \
closed Finished(Done) periods 3 1 root |
fn main() { par { print 1; } and { print 2; } print 3; }
@ 16 1 1024 2 | 0 steal/0 act/0 act/0 steal/0 act/0 steal/0 act/0 act/0 steal | |
stole 0 1, did 0 0 0, gave up 0, stole 1 2, did 0 0 1, stole 0 3, did 1 0 0, did 3 0 0, \
Stopped(DequesFull { deques: 2 }), closed Stopped(DequesFull { deques: 2 }) periods 3 1 no root |
fn main() { alloc b = 40; free b; }
@ 64 1 32 64 | 0 steal/0 act/0 act/0 halt/0 halt | |
stole 0 1, Stopped(ArenaFull { live: 0, asked: 48 }), Stopped(ArenaFull { live: 0, asked: 48 }), \
halted Stopped(ArenaFull { live: 0, asked: 48 }), halted Stopped(ArenaFull { live: 0, asked: 48 }), \
closed Stopped(ArenaFull { live: 0, asked: 48 }) periods 1 0 no root |
fn main() { alloc b = 40; free b; }
@ 16 2 1024 64 | 0 steal/0 enter/1 list: 0 act/1 list: 0 act/1 list: 0 act/1 list: 0 act/1 steal/0 act/0 enter | 1 leave 0/0 enter |
stole 0 1, entered 1, did 0 0 0, did 1 0 0, did 0 0 1, Busy(Held { slot: 0, seen: 1 }), Nothing, did 0 0 2, Crowded { places: 1 }, StillIn { places: 1 }, left, \
Over(Finished(Done)), closed Finished(Done) periods 1 0 root |
fn main() { par { print 1; } and { print 2; } print 3; }
@ 64 2 1024 64 | 0 steal/0 enter/1 list: 0 act/1 list: 0 act/1 list: 0 act/1 list: 0 act/1 list: 0 act/1 list: 0 act/1 list: 0 act/1 list: 0 act/\
0 act/1 leave 0 | |
stole 0 1, entered 1, did 0 0 0, did 1 0 0, did 1 0 1, did 1 0 2, did 0 0 1, did 0 0 2, did 0 0 3, Busy(Held { slot: 0, seen: 1 }), did 0 0 4, left, \
closed Finished(Done) periods 1 0 root |
fn main() { par { alloc a = 16; free a; } and { alloc b = 16; free b; } }
@ 1024 1 1024 64 | 0 steal/0 act/0 act/0 act/0 act/0 act/0 act/0 act/0 act/0 steal | |
stole 0 1, did 0 0 0, did 0 0 1, did 0 0 2, did 0 0 3, did 1 0 0, did 1 0 1, did 0 0 4, did 0 0 5, \
Over(Finished(Faulted(FaultAt { kind: Index, line: 2 }))), closed Finished(Faulted(FaultAt { kind: Index, line: 2 })) periods 1 0 root |
fn f(use u) { alloc n = 2; par { n[2] = 1; } and { u[0] = 1; } free n; } fn main() { alloc a = 1; alloc c = 1; call f(use a); free a; free c; }
@ 1024 2 1024 64 | 0 steal/0 act/0 act/0 enter/1 steal/0 act/1 act/1 act/1 act/0 steal/1 leave 0 | |
stole 0 1, did 0 0 0, did 0 0 1, entered 1, stole 1 2, did 1 0 0, did 0 0 2, did 0 0 3, did 0 0 4, \
Over(Finished(Faulted(FaultAt { kind: Divide, line: 2 }))), left, closed Finished(Faulted(FaultAt { kind: Divide, line: 2 })) periods 2 1 root |
fn main() { alloc a = 16; par { a[0] = 1; print 7; } and { print 1 / 0; } free a; }
";

#[test]
fn calls_answer_what_the_rules_say(rt: HostRuntime) {
    tell_so(&rt, rt.alloc(), ROWS);
}
