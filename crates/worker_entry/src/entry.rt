//! The hall of a core.

ghost use Rattle.std.specs.Prelude.{◌≡◌, ◌+◌, ◌≤◌, [], ◌∷◌, IfOk};
ghost use Rattle.block_arena.specs.declared.size.TheConstants.{MOST_COUNTED};
ghost use Rattle.deque_list.specs.Ids.{first_place};
ghost use Rattle.dfd_core.specs.Cores.{terms_at};
ghost use Rattle.dfd_core.specs.Parts.{IsFresh};
ghost use Rattle.turn_table.specs.Hands.{fresh};
ghost use Rattle.turn_table.specs.Tables.{key_of, slot_count, IsSeatOf};
ghost use Rattle.hall_slots.specs.First.{first_note};
ghost use Rattle.worker_entry.specs.Entry.{IsKeyOf};

use block_arena::Pool;
use deque_list::Order;
use dfd_core::{Core, CoreParts};
use hall_slots::{HallKey, HallPlace, HallRow, open_row};
use std::alloc::{AllocError, Global};
use std::snapshot::Snapshot;
use thread_frames::Code;

/// The program, for contracts alone.
fn shown_code(code: &Code) -> Snapshot<Code>
    ensures { result.value ≡ code.now }
{
    Snapshot::of(code)
}

/// The words of a pool.
fn words_of(pool: &Pool) -> u64
    ensures value { result ≡ pool.now.capacity }
    ensures few { result ≤ MOST_COUNTED }
{
    pool.capacity()
}

/// How many deques there may be in an order of one.
fn most_of(order: &Order) -> u32
    requires { order.now.places ≡ first_place ∷ [] }
    ensures value { result ≡ order.now.most }
    ensures some { 1 ≤ result }
{
    // For the prover alone: what an order ensures of itself is known where it is read.
    let _deques = order.len();
    order.most()
}

/// The slots of a hall for the run of a core that has done no step, its first seat, and the program.
///
/// # Errors
///
/// There is not enough memory.
pub fn open_hall(alloc: Global, core: Core) -> Result<(HallRow, HallPlace, Code), AllocError>
    requires { IsFresh core }
    ensures seat { IfOk result (λ made. IsSeatOf made.0 made.1) }
    ensures code { IfOk result (λ made. made.2 ≡ core.code) }
    ensures key { IfOk result (λ made. IsKeyOf core (key_of made.0)) }
    ensures slots { IfOk result (λ made. slot_count made.0 ≡ (terms_at core).limits.deques + 2) }
    ensures note { IfOk result (λ made. made.1.hand ≡ fresh (first_note (terms_at core).workers)) }
{
    let CoreParts {
        code,
        quota,
        workers,
        limit,
        order,
        lane,
        pool,
        ..
    } = core.into_parts();
    let key = HallKey {
        code: shown_code(&code),
        quota,
        workers,
        capacity: words_of(&pool),
        actions: limit,
        deques: most_of(&order),
    };
    let (row, seat) = open_row(alloc, key, order, lane, pool)?;
    Ok((row, seat, code))
}
