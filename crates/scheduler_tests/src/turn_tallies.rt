//! Seats that count, and note how often.
ghost use Rattle.std.specs.Prelude.{◌≡◌, ◌+◌, ◌<◌, [], IfOk};
ghost use Rattle.turn_table.specs.Tables.{slot_count, IsSeatOf};

use std::alloc::{AllocError, Global};
use std::test::Fail;
use std::thread;
use std::thread::Threads;
use turn_table::{Held, Joins, Keep, Notes, Splits, StillHeld, TurnLaw, TurnSeat, Turns};

// The count word is the sum of the notes, but for whole turns of the word.
struct Tallied;

impl TurnLaw<u8> for Tallied {
    ghost use Rattle.std.specs.Prelude.{◌≡◌, ◌%◌, ◌^◌, sum};
    ghost use Rattle.turn_table.specs.Notes.{OverNotes};

    type Key = ();

    type Note = u64;

    ghost fact = { OverNotes (λ _ _ count notes. count ≡ sum notes % 2 ^ 64) };

    ghost blank = { 0 };
}

// Each count adds 1 to the note, and a join adds the notes up.
struct Tally;

impl Notes<u8, u64> for Tally {
    ghost use Rattle.std.specs.Prelude.{◌+◌};

    ghost note = { λ hand _. hand.note + 1 };
}

impl Splits<u8, u64> for Tally {
    ghost left = { λ hand. hand.note };

    ghost right = { λ _. 0 };
}

impl Joins<u8, u64> for Tally {
    ghost use Rattle.std.specs.Prelude.{◌+◌};

    ghost note = { λ hand other. hand.note + other.note };
}

type Row = Turns<u8, Tallied>;

type Counter = TurnSeat<u8, Tallied>;

fn count_up(row: &Row, mut seat: Counter, times: u64) -> Counter
    requires { IsSeatOf row.now seat × (seat.hand.holds ≡ []) }
    ensures { IsSeatOf row.now result × (result.hand.holds ≡ []) × (result.hand.note ≡ seat.hand.note + times) }
{
    for done in 0..times {
        let _ = done;
        row.count::<Tally>(&mut seat);
    }
    seat
}

// Two seats that count in threads of their own. The seat that stays notes the counts of both.
fn count_in_two_threads<R: Threads>(
    rt: &R,
    row: &Row,
    a: Counter,
    b: Counter,
    times: u64,
) -> Counter
    requires { IsSeatOf row.now a × (a.hand.holds ≡ []) × IsSeatOf row.now b × (b.hand.holds ≡ []) }
    ensures { IsSeatOf row.now result × (result.hand.holds ≡ []) × (result.hand.note ≡ a.hand.note + times + (b.hand.note + times)) }
{
    let (b, mut a) = thread::join(
        rt,
        move || -> Counter
            requires { IsSeatOf row.now b × (b.hand.holds ≡ []) }
            ensures { IsSeatOf row.entry.now result × (result.hand.holds ≡ []) × (result.hand.note ≡ b.hand.note + times) }
        { count_up(row, b, times) },
        move || -> Counter
            requires { IsSeatOf row.now a × (a.hand.holds ≡ []) }
            ensures { IsSeatOf row.entry.now result × (result.hand.holds ≡ []) × (result.hand.note ≡ a.hand.note + times) }
        { count_up(row, a, times) },
    );
    row.join_seat::<Tally>(&mut a, b);
    a
}

// A row of so many slots, and two seats.
fn opened(alloc: Global, slots: u32) -> Result<(Row, Counter, Counter), AllocError>
    requires { 0 < slots }
    ensures { IfOk result (λ made. IsSeatOf made.0 made.1 × (made.1.hand.holds ≡ []) × IsSeatOf made.0 made.2 × (made.2.hand.holds ≡ [])
        × (slot_count made.0 ≡ slots)) }
{
    let values = vec![in alloc; 9; slots as usize]?;
    match Row::new::<Keep>(alloc, values, ()) {
        Ok((row, mut a)) => {
            let b = row.split_seat::<Tally>(&mut a);
            Ok((row, a, b))
        }
        Err((_, error)) => Err(error),
    }
}

#[test]
fn counts_in_two_threads(rt: HostRuntime) -> Result<(), Fail> {
    let (row, a, b) = opened(rt.alloc(), 1)?;
    let mut a = count_in_two_threads(&rt, &row, a, b, 1000);
    assert!(rt; row.count::<Tally>(&mut a) == 2000);
    Ok(())
}

#[test]
fn refuses_what_is_held(rt: HostRuntime) -> Result<(), Fail> {
    let (row, mut a, mut b) = opened(rt.alloc(), 1)?;
    let taken = row.take::<Keep>(&mut a, 0);
    let tried = row.take::<Keep>(&mut b, 0);
    assert!(rt; taken == Ok(9) && tried == Err(Held { slot: 0, seen: 1 }));
    match row.close(b) {
        Ok(_) => panic!(rt; "a turn is held"),
        Err(still) => assert!(rt; still == StillHeld { slot: 0 }),
    }
    Ok(())
}

// Takes the turn of a slot and gives it back.
fn touch(row: &Row, seat: &mut Counter, i: u32) -> Result<u8, Held>
    requires { IsSeatOf row.now seat.old × (seat.old.hand.holds ≡ []) × (i < slot_count row.now) }
    ensures { IsSeatOf row.now seat.new × (seat.new.hand.holds ≡ []) }
{
    let found = row.take::<Keep>(seat, i)?;
    row.put_back::<Keep>(seat, i, found);
    Ok(found)
}

// A slot for each deque that a list may have, and two more.
#[test]
fn rows_are_wide(rt: HostRuntime) -> Result<(), Fail> {
    let (row, mut a, _b) = opened(rt.alloc(), 4_098)?;
    assert!(rt; touch(&row, &mut a, 0) == Ok(9));
    assert!(rt; touch(&row, &mut a, 4_097) == Ok(9));
    assert!(rt; row.count::<Tally>(&mut a) == 0);
    let Ok(values) = row.close(a) else {
        panic!(rt; "no turn is held")
    };
    assert!(rt; values.len() == 4_098 && values.get(4_097) == Some(&9));
    Ok(())
}
