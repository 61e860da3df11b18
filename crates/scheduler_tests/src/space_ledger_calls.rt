use containers::BoundedList;
use dag_order::{ActionId, ThreadId};
use space_ledger::{Book, Books, Closed, Moved, Moves, NumberedBooks};
use std::alloc::Global;
use std::process::Abort;

const FIRST: ActionId = ActionId {
    by: ThreadId::ROOT,
    index: 0,
};

// The functions below make room for what they add. A caller knows nothing of what they did.

fn add_move(rt: &impl Abort, moves: &mut Moves, change: i64) {
    assert!(rt; moves.reserve().is_ok());
    let sum = moves.live();
    assert!(rt; -100_000 < sum && sum < 100_000);
    assert!(rt; -100_000 < change && change < 100_000);
    moves.add(Moved { by: FIRST, change });
}

// Each change, and the sum and the high mark after it.
#[test]
fn the_high_mark_is_the_greatest_sum_so_far(rt: HostRuntime) {
    let mut moves = Moves::new(rt.alloc());
    for (change, live, high) in [
        (-16, -16, 0),
        (16, 0, 0),
        (48, 48, 48),
        (0, 48, 48),
        (-48, 0, 48),
        (32, 32, 48),
        (32, 64, 64),
        (-64, 0, 64),
    ] {
        add_move(&rt, &mut moves, change);
        assert!(rt; moves.live() == live && moves.high() == high);
    }
    for _ in 0..70_000u32 {
        add_move(&rt, &mut moves, 1);
    }
    assert!(rt; moves.len() == 70_008 && moves.high() == 70_000);
}

// A book of so many actions.
fn book_of(rt: &impl Abort, alloc: Global, actions: u32) -> Book {
    let mut book: Book = BoundedList::new(alloc);
    for _ in 0..actions {
        assert!(rt; book.reserve().is_ok());
        book.add(FIRST);
    }
    book
}

fn add_period(rt: &impl Abort, alloc: Global, books: &mut Books, number: u32, actions: u32) {
    assert!(rt; books.reserve().is_ok());
    books.add(Closed {
        number,
        ahead: number % 2 == 0,
        book: book_of(rt, alloc, actions),
        births: BoundedList::new(alloc),
    });
}

fn are_found(rt: &(impl Abort + AllocGlobal), books: &Books) {
    let numbered = NumberedBooks::of(rt.alloc(), books).expect(rt, "memory");
    for number in [1, 2, 4_097, 65_537, 70_000] {
        let found = numbered.period(number).map(|closed| closed.number);
        assert!(rt; found == Some(number));
    }
    assert!(rt; numbered.period(0).is_none() && numbered.period(70_001).is_none());
}

// As many periods as a long run has, which end in another order than they began, and one that has many actions.
#[test]
fn books_grow(rt: HostRuntime) {
    let mut books = Books::new(rt.alloc());
    for ended in 0..70_000u32 {
        add_period(&rt, rt.alloc(), &mut books, 70_000 - ended, 1);
    }
    add_period(&rt, rt.alloc(), &mut books, 70_000, 5_000);
    assert!(rt; books.periods() == 70_001 && books.ahead() == 35_001 && books.actions() == 75_000);
    are_found(&rt, &books);
}
