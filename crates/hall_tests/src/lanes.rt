//! Two threads that hold different lanes at one time.

ghost use Rattle.std.specs.Prelude.{◌≡◌, ◌+◌, ◌<◌};
ghost use Rattle.turn_table.specs.Tables.{slot_count};
ghost use Rattle.hall_threads.specs.Passed.Seated.{IsIn, IsProgramOf};

use crate::halls::{Bounds, ample, entered, hall_within};
use crate::scripts::{add, tell_answer};
use crate::seats::{go_on, left, owned};
use frame_code::Code;
use hall_slots::{give_lane_back, take_lane};
use hall_threads::{Hall, Seat};
use std::alloc::Global;
use std::process::Abort;
use std::sync::atomic::{AtomicU64, Ordering};
use std::thread;
use std::thread::Threads;

/// How often a thread looks whether the other one has come, at most.
const MOST_LOOKS: u32 = 100_000_000;

/// A child and its parent, each with a block.
const TWO_BLOCKS: &str =
    "fn main() { par { alloc a = 16; free a; } and { alloc b = 16; free b; } }";

/// Where threads meet: how often one has come.
#[derive(Drop)]
struct Meeting {
    came: AtomicU64,
}

impl Meeting {
    fn new() -> Meeting {
        Meeting {
            came: AtomicU64::new(0),
        }
    }

    /// Comes.
    fn come(&self) {
        self.came.fetch_add(1, Ordering::SeqCst);
    }

    /// Waits until threads have come so often.
    fn wait(&self, rt: &impl Abort, until: u64) {
        for _ in 0..MOST_LOOKS {
            if until <= self.came.load(Ordering::SeqCst) {
                return;
            }
            thread::yield_now();
        }
        panic!(rt; "the other thread does not come");
    }
}

/// Holds the lane of a seat's deque from the time at which it comes until threads have come so often.
fn hold(rt: &impl Abort, hall: &Hall, seat: Seat, meeting: &Meeting, until: u64) -> Seat
    requires { IsIn hall.now seat }
    ensures { IsIn hall.now result }
{
    let mut seat = seat;
    let deque = owned(rt, hall, &seat);
    let Ok(lane) = take_lane(&hall.row, &mut seat.place, deque) else {
        panic!(rt; "the lane is held");
    };
    meeting.come();
    meeting.wait(rt, until);
    give_lane_back(&hall.row, &mut seat.place, deque, lane);
    seat
}

/// Lets a seat go on so often, and writes what it answers.
fn go_on_often(
    rt: &impl Abort,
    text: &mut String,
    hall: &Hall,
    code: &Code,
    seat: &mut Seat,
    times: u32,
)
    requires program { IsProgramOf hall.now code.now }
    requires here { IsIn hall.now seat.old }
    ensures { IsIn hall.now seat.new }
{
    for _ in 0..times {
        let answer = go_on(hall, code, seat, 0);
        tell_answer(rt, text, answer);
        add(rt, text, ", ");
    }
}

/// Lets a seat go on three times once another thread has come, and comes then. What the seat answers is written down.
fn go_on_beside(
    rt: &impl Abort,
    alloc: Global,
    hall: &Hall,
    code: &Code,
    seat: Seat,
    meeting: &Meeting,
) -> (Seat, String)
    requires program { IsProgramOf hall.now code.now }
    requires here { IsIn hall.now seat }
    ensures { IsIn hall.now result.0 }
{
    let mut seat = seat;
    let mut text = String::new(alloc);
    meeting.wait(rt, 1);
    go_on_often(rt, &mut text, hall, code, &mut seat, 3);
    meeting.come();
    (seat, text)
}

/// Two seats hold their lanes at one time.
fn hold_both<R: Threads + Abort + Sync>(rt: &R, hall: &Hall, a: Seat, b: Seat) -> (Seat, Seat)
    requires a { IsIn hall.now a }
    requires b { IsIn hall.now b }
    ensures a { IsIn hall.now result.0 }
    ensures b { IsIn hall.now result.1 }
{
    let meeting = Meeting::new();
    let both = &meeting;
    thread::join(
        rt,
        move || -> Seat
            requires { IsIn hall.now a }
            ensures { IsIn hall.entry.now result }
        { hold(rt, hall, a, both, 2) },
        move || -> Seat
            requires { IsIn hall.now b }
            ensures { IsIn hall.entry.now result }
        { hold(rt, hall, b, both, 2) },
    )
}

/// One seat goes on while another one holds its lane.
fn hold_one<R: Threads + Abort + Sync>(
    rt: &R,
    alloc: Global,
    hall: &Hall,
    code: &Code,
    a: Seat,
    b: Seat,
) -> (Seat, (Seat, String))
    requires program { IsProgramOf hall.now code.now }
    requires a { IsIn hall.now a }
    requires b { IsIn hall.now b }
    ensures a { IsIn hall.now result.0 }
    ensures b { IsIn hall.now result.1.0 }
{
    let meeting = Meeting::new();
    let both = &meeting;
    thread::join(
        rt,
        move || -> Seat
            requires { IsIn hall.now a }
            ensures { IsIn hall.entry.now result }
        { hold(rt, hall, a, both, 2) },
        move || -> (Seat, String)
            requires { IsProgramOf hall.now code.now × IsIn hall.now b }
            ensures { IsIn hall.entry.now result.0 }
        { go_on_beside(rt, alloc, hall, code, b, both) },
    )
}

/// Lets two seats own a deque each: the first that of the child, the second that of its parent.
fn part(rt: &impl Abort, hall: &Hall, code: &Code, first: &mut Seat) -> Seat
    requires program { IsProgramOf hall.now code.now }
    requires first { IsIn hall.now first.old }
    ensures first { IsIn hall.now first.new }
    ensures second { IsIn hall.now result }
{
    let mut second = entered(rt, hall, first);
    go_on(hall, code, first, 0).expect(rt, "a steal");
    go_on(hall, code, first, 0).expect(rt, "a fork");
    go_on(hall, code, &mut second, 0).expect(rt, "a steal");
    second
}

/// Lets the first seat go on to the end of the run, and the second one leave into it.
fn finish(
    rt: &impl Abort,
    text: &mut String,
    hall: &Hall,
    code: &Code,
    first: &mut Seat,
    second: Seat,
)
    requires program { IsProgramOf hall.now code.now }
    requires first { IsIn hall.now first.old }
    requires second { IsIn hall.now second }
    ensures { IsIn hall.now first.new }
{
    go_on_often(rt, text, hall, code, first, 6);
    assert!(rt; left(hall, second, first).is_ok(), "it does not leave");
}

#[test]
fn owners_hold_their_lanes_at_one_time(rt: HostRuntime) {
    let all = Bounds { k: 64, ..ample(2) };
    let (hall, code, first) = hall_within(&rt, rt.alloc(), TWO_BLOCKS, all);
    let mut first = first;
    let second = part(&rt, &hall, &code, &mut first);
    let (first, second) = hold_both(&rt, &hall, first, second);
    let (mut first, (second, told)) = hold_one(&rt, rt.alloc(), &hall, &code, first, second);
    let mut text = told;
    finish(&rt, &mut text, &hall, &code, &mut first, second);
    let due =
        "did 0 0 1, did 0 0 2, suspended 0 0, did 1 0 0, did 1 0 1, did 1 0 2, did 0 0 3, did 0 0 4, Over(Finished(Done)), ";
    assert!(rt; text.as_str() == due, "{text}");
}
