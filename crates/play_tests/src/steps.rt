//! Steps of workers, told one by one: one that waits, one that finds nothing to steal, and one that gives its deque up.

use crate::players::{Numbers, Player, is_unfinished, player_of, step_of};
use crate::plays::{lists_of, number};
use dfd_core::Core;
use std::alloc::Global;
use std::fmt::Write;
use std::process::Abort;

/// The first worker gives its deque up.
fn give_up(rt: &impl Abort, core: &mut Core) {
    let owned = match core.seat(0) {
        Some(seat) => seat.deque,
        None => panic!(rt; "it owns no deque"),
    };
    let deque = core.give_up(0).expect(rt, "memory");
    assert!(rt; deque == owned, "it gave another deque up");
}

/// Lets workers move, one a digit, and writes down what they did. At a `g` the first one gives its deque up.
fn tell_moves(rt: &impl Abort, text: &mut String, player: &mut Player, moves: &str) {
    for letter in moves.trim().bytes() {
        if letter == b'g' {
            if let Player::Deques(core) = player {
                give_up(rt, core);
            }
            continue;
        }
        let worker = u32::from(letter.saturating_sub(b'0'));
        let stepped = step_of(rt, player, worker, 0);
        write!(text, "{stepped:?} ").expect(rt, "memory");
    }
}

/// Moves of the workers of a run with a quota of 16: `deques` or `ready`, how many workers there are, the moves, what they tell, and the
/// program.
///
/// The second worker steals the root while the first one runs the child that it forked, and has to wait; with a ready list it finds no entry
/// while the root runs, and the parent of a Fork is one. A worker forks and gives its deque up: then it steals the root, which has to wait,
/// and after that the child. In the last row the block is three quotas, so three dummies come before it: one of the root and two of its
/// child, which forks a child of its own for the first of them. The quota pays for one Fork, so the worker gives up at that of the child; and
/// after each dummy it has to steal again, always from the leftmost deque.
const MOVES: &str = "
deques | 2 | 10100111 | Stole { deque: DequeId(0), period: 1 } Nothing Acted(ActionId { by: ThreadId { period: 0, nth: 0 }, index: 0 }) Stole { deque: DequeId(1), period: 2 } Suspended(ThreadId { period: 0, nth: 0 }) Acted(ActionId { by: ThreadId { period: 1, nth: 0 }, index: 0 }) Acted(ActionId { by: ThreadId { period: 0, nth: 0 }, index: 1 }) Acted(ActionId { by: ThreadId { period: 0, nth: 0 }, index: 2 }) | fn main() { par { print 1; } and { print 2; } print 3; }
deques | 1 | 00g0000000 | Stole { deque: DequeId(0), period: 1 } Acted(ActionId { by: ThreadId { period: 0, nth: 0 }, index: 0 }) Stole { deque: DequeId(1), period: 2 } Suspended(ThreadId { period: 0, nth: 0 }) Stole { deque: DequeId(0), period: 3 } Acted(ActionId { by: ThreadId { period: 1, nth: 0 }, index: 0 }) Acted(ActionId { by: ThreadId { period: 0, nth: 0 }, index: 1 }) Acted(ActionId { by: ThreadId { period: 0, nth: 0 }, index: 2 }) Over(Finished(Done)) | fn main() { par { print 1; } and { print 2; } print 3; }
ready | 2 | 0101 | Stole { deque: DequeId(0), period: 1 } Nothing Acted(ActionId { by: ThreadId { period: 0, nth: 0 }, index: 0 }) Stole { deque: DequeId(1), period: 2 } | fn main() { par { print 1; } and { print 2; } print 3; }
deques | 1 | 000000000000000000000 | Stole { deque: DequeId(0), period: 1 } Acted(ActionId { by: ThreadId { period: 0, nth: 0 }, index: 0 }) GaveUp(DequeId(0)) Stole { deque: DequeId(1), period: 2 } Acted(ActionId { by: ThreadId { period: 0, nth: 0 }, index: 1 }) Stole { deque: DequeId(0), period: 3 } Acted(ActionId { by: ThreadId { period: 1, nth: 0 }, index: 0 }) Acted(ActionId { by: ThreadId { period: 3, nth: 0 }, index: 0 }) Stole { deque: DequeId(2), period: 4 } Acted(ActionId { by: ThreadId { period: 1, nth: 0 }, index: 1 }) Stole { deque: DequeId(0), period: 5 } Acted(ActionId { by: ThreadId { period: 3, nth: 0 }, index: 1 }) Stole { deque: DequeId(2), period: 6 } Acted(ActionId { by: ThreadId { period: 1, nth: 0 }, index: 2 }) Acted(ActionId { by: ThreadId { period: 1, nth: 0 }, index: 3 }) Stole { deque: DequeId(1), period: 7 } Acted(ActionId { by: ThreadId { period: 0, nth: 0 }, index: 2 }) Acted(ActionId { by: ThreadId { period: 0, nth: 0 }, index: 3 }) Acted(ActionId { by: ThreadId { period: 0, nth: 0 }, index: 4 }) Acted(ActionId { by: ThreadId { period: 0, nth: 0 }, index: 5 }) Over(Finished(Done)) | fn main() { alloc b = 40; free b; }
";

/// The workers of a row do what the row says.
fn step_row(rt: &impl Abort, alloc: Global, row: &str) -> Option<()> {
    let mut parts = row.split('|');
    let lists = lists_of(parts.next()?);
    let numbers = Numbers {
        k: 16,
        workers: number(parts.next()?),
        arena: 1_024,
        limit: 100,
        most: 4_096,
    };
    let moves = parts.next()?;
    let want = parts.next()?.trim();
    let mut player = player_of(rt, alloc, parts.next()?.trim(), lists, numbers);
    assert!(rt; is_unfinished(&player), "a new run has no output");
    let mut text = String::new(alloc);
    tell_moves(rt, &mut text, &mut player, moves);
    assert!(rt; text.trim_end() == want, "{text}");
    Some(())
}

#[test]
fn steps_are_told_one_by_one(rt: HostRuntime) {
    for row in MOVES.trim().split('\n') {
        assert!(rt; step_row(&rt, rt.alloc(), row).is_some());
    }
}
