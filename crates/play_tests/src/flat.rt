//! Flat code of functions, as a text that was worked out by hand.

ghost use Rattle.node_table.specs.Codes.{code_shown};
ghost use Rattle.flat_statements.specs.Forward.{IsForward};
ghost use Rattle.flat_code.specs.Shown.{flat_shown};
ghost use Rattle.flat_program.specs.Programs.{IsFlatProgram};

use crate::tables::table_in;
use dag_order::FaultKind;
use flat_code::{Places, can_be_flat, listing, lower_whole};
use flat_program::FlatProgram;
use flat_run::{End, run_flat};
use frame_code::NodeTable;
use slot_store::Slots;
use std::alloc::Global;
use std::process::Abort;
use thread_stack::{Frame, ListOf};

/// A loop in an arm of an `if` in a loop. The slots are x and y; the nodes are the two `let`s, the outer loop, the `if`, the inner loop
/// with its assignment, the other assignment, and `print`, from 0 on.
const LOOPS: &str = "
fn main() {
    let x = 3;
    let y = 1;
    while x {
        if y < x {
            while y < 3 {
                y = y + 1;
            }
        } else {
            x = x - 1;
        }
    }
    print x;
}
";

/// Its flat code. The test of each loop is before and after its body, and the frame of a loop that comes again is in the marks of all that
/// is inside it.
const LOOPS_LISTED: &str = "\
0 s0 = 3 | body 0 at 0
1 s1 = 1 | body 0 at 1
2 while s0 go to 3 else 10 | body 0 at 2
3 if s1 < s0 else 8 | body 0 at 3 | again 2 | round 2 at 0
4 while s1 < 3 go to 5 else 7 | body 0 at 3 | again 2 | then 3 at 0
5 s1 = s1 + 1 | body 0 at 3 | again 2 | again 4 | round 4 at 0
6 while s1 < 3 go to 5 else 7 | body 0 at 3 | again 2 | again 4
7 go to 9 | body 0 at 3 | again 2
8 s0 = s0 - 1 | body 0 at 3 | again 2 | else 3 at 0
9 while s0 go to 3 else 10 | body 0 at 3 | again 2
10 leave | body 0 at 3
11 leave
";

/// Expressions that need temporary slots, which are those from 3 on: b is slot 0, x slot 1 and y slot 2.
const NUMBERS: &str = "
fn main() {
    alloc b = 4;
    let x = 2;
    let y = x * (x + 1) - -x;
    b[x - 1] = (b[0] < y) + len(b);
    free b;
}
";

const NUMBERS_LISTED: &str = "\
0 leave | body 0 at 0
1 s1 = 2 | body 0 at 1
2 s4 = s1 + 1 | body 0 at 2
3 s3 = s1 * s4 | body 0 at 2
4 s4 = -s1 | body 0 at 2
5 s2 = s3 - s4 | body 0 at 2
6 s3 = s1 - 1 | body 0 at 3
7 s4 = s0[0] | body 0 at 3
8 s4 = s4 < s2 | body 0 at 3
9 s5 = len s0 | body 0 at 3
10 s4 = s4 + s5 | body 0 at 3
11 s0[s3] = s4 | body 0 at 3
12 leave | body 0 at 4
13 leave
";

/// How many slots the rows have: those of the functions, and temporary ones.
const ROW: u16 = 11;

/// The flat code of the body of a program's only function.
fn places_of(rt: &impl Abort, alloc: Global, text: &str) -> Places
    ensures { IsForward (flat_shown result.items) }
{
    let table = table_in(rt, alloc, text);
    let Some(func) = table.func(0) else {
        panic!(rt; "a function");
    };
    let slots = func.slots;
    let body = ListOf::Body(0);
    assert!(rt; can_be_flat(&table, body, slots, ROW));
    let Ok(places) = lower_whole(alloc, &table, body, slots, ROW) else {
        panic!(rt; "memory");
    };
    places
}

/// It is this text.
fn is_listed(rt: &impl Abort, alloc: Global, text: &str, due: &str) {
    let places = places_of(rt, alloc, text);
    let listed = listing(alloc, &places).expect(rt, "memory");
    assert!(rt; listed.as_bytes() == due.as_bytes(), "{}", listed);
}

/// Run from a place on with so many turns it stops at another place, with so many turns and this end, and leaves these integers in the first
/// slots.
fn stops_at(
    rt: &impl Abort,
    alloc: Global,
    text: &str,
    (from, turns): (usize, u32),
    due: (usize, u32, End),
    integers: &[i64],
) {
    let places = places_of(rt, alloc, text);
    let mut row = Slots::new(alloc, ROW).expect(rt, "memory");
    let stop = run_flat(&mut row, &places, from, turns);
    assert!(rt; stop.place == due.0 && stop.turns == due.1 && stop.end == due.2);
    let mut slot = 0u16;
    for integer in integers {
        assert!(rt; row.integer(slot) == *integer);
        slot = slot.saturating_add(1);
    }
}

#[test]
fn flat_code_is_listed(rt: HostRuntime) {
    let alloc = rt.alloc();
    is_listed(&rt, alloc, LOOPS, LOOPS_LISTED);
    is_listed(&rt, alloc, NUMBERS, NUMBERS_LISTED);
}

/// The loops take six turns, and end at `print`. With one turn less the last round of the outer one has none. From the inner one on, where all
/// is 0, it takes three turns, and the outer one none. A number is read where there is no block, since nothing has done the allocation.
#[test]
fn flat_code_runs(rt: HostRuntime) {
    let alloc = rt.alloc();
    stops_at(&rt, alloc, LOOPS, (0, 8), (10, 2, End::Leaves), &[0, 3]);
    stops_at(
        &rt,
        alloc,
        LOOPS,
        (0, 5),
        (9, 0, End::Faults(FaultKind::Turns)),
        &[1, 3],
    );
    stops_at(&rt, alloc, LOOPS, (4, 3), (10, 0, End::Leaves), &[0, 3]);
    stops_at(
        &rt,
        alloc,
        NUMBERS,
        (1, 0),
        (7, 0, End::Faults(FaultKind::Index)),
        &[0, 2, 8],
    );
}

/// A frame begins at this place of the flat code of its program.
fn begins_at(
    rt: &impl Abort,
    table: &NodeTable,
    program: &FlatProgram,
    frame: Frame,
    due: Option<usize>,
)
    requires { IsFlatProgram (code_shown table.now) program.now }
{
    match program.start(table, frame) {
        Some(start) => assert!(rt; due == Some(start.place)),
        None => assert!(rt; due.is_none()),
    }
}

/// The statements of a list from a place on.
fn from(list: ListOf, next: usize) -> Frame {
    Frame::Statements { list, next }
}

/// Each statement begins where the text above says, and each loop that comes again at its second test. A list has no frame at its end.
#[test]
fn frames_begin_in_flat_code(rt: HostRuntime) {
    let alloc = rt.alloc();
    let table = table_in(&rt, alloc, LOOPS);
    let program = FlatProgram::of(alloc, &table).expect(&rt, "memory");
    begins_at(&rt, &table, &program, from(ListOf::Body(0), 0), Some(0));
    begins_at(&rt, &table, &program, from(ListOf::Body(0), 2), Some(2));
    begins_at(&rt, &table, &program, from(ListOf::Round(2), 0), Some(3));
    begins_at(&rt, &table, &program, from(ListOf::Then(3), 0), Some(4));
    begins_at(&rt, &table, &program, from(ListOf::Other(3), 0), Some(8));
    begins_at(&rt, &table, &program, from(ListOf::Body(0), 3), Some(10));
    begins_at(&rt, &table, &program, from(ListOf::Body(0), 4), None);
    begins_at(&rt, &table, &program, Frame::Again(2), Some(9));
    begins_at(&rt, &table, &program, Frame::Again(4), Some(6));
    begins_at(&rt, &table, &program, Frame::Again(3), None);
}
