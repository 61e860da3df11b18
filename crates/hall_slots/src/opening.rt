//! How the slots of a hall begin.

ghost use Rattle.std.specs.Prelude.{◌≡◌, ◌+◌, ◌≤◌, [], ◌∷◌, IfOk, OnOk};
ghost use Rattle.deque_list.specs.Ids.{first_place};
ghost use Rattle.thread_frames.specs.Roots.{IsRootAlone};
ghost use Rattle.turn_table.specs.Hands.{fresh};
ghost use Rattle.turn_table.specs.Tables.{key_of, slot_count, IsSeatOf};
ghost use Rattle.hall_slots.specs.Keys.{IsKey, table_of, quota_of};
ghost use Rattle.hall_slots.specs.First.{AddsEmptyLanes, AreFirst, AreThree, IsFirstList, first_note};

use crate::{HallKey, HallPlace, HallRow, LaneSlot, ListSlot, PoolSlot, Slot};
use block_arena::Pool;
use containers::Boxed;
use deque_list::{Lane, Order};
use list_changes::ListPart;
use space_ledger::{Books, Moves};
use std::alloc::{AllocError, Global};
use std::marker::Brand;
use thread_frames::Thread;
use thread_map::ThreadMap;

/// The list of a run that has done nothing. The worker 0 is in.
fn first_list(alloc: Global, order: Order) -> Result<Boxed<ListSlot>, AllocError>
    ensures { IfOk result (λ list. IsFirstList order list) }
{
    let crew = vec![in alloc; 0u32; 1]?;
    let part = ListPart {
        order,
        waiting: ThreadMap::new(alloc),
        results: ThreadMap::new(alloc),
        books: Books::new(alloc),
        begun: 0,
    };
    let list = ListSlot {
        part,
        crew,
        end: None,
    };
    Boxed::new(alloc, list)
}

/// Adds so many lanes without threads.
fn add_empty_lanes(alloc: Global, slots: &mut Vec<Slot>, count: u32) -> Result<(), AllocError>
    ensures { OnOk result (AddsEmptyLanes slots.old.items count slots.new.items) }
{
    'lanes: for _added in 0..count {
        let lane = LaneSlot {
            lane: Lane::new(alloc),
            running: None,
        };
        slots.push(Slot::Lane(lane))?;
    }
    Ok(())
}

/// The list, the pool without moves, and the lane of the one deque, in which no period runs.
fn three_slots(
    alloc: Global,
    list: Boxed<ListSlot>,
    lane: Lane<Boxed<Thread>>,
    pool: Pool,
) -> Result<Vec<Slot>, AllocError>
    ensures { IfOk result (λ slots. AreThree list lane pool slots.items) }
{
    let moves = Moves::new(alloc);
    let lane = LaneSlot {
        lane,
        running: None,
    };
    let slots = vec![in alloc;
        Slot::List(list),
        Slot::Pool(PoolSlot { pool, moves }),
        Slot::Lane(lane),
    ]?;
    Ok(slots)
}

/// The slots of a run that has done nothing, with this lane for its one deque and a lane for each other one that there may be.
fn first_slots(
    alloc: Global,
    order: Order,
    lane: Lane<Boxed<Thread>>,
    pool: Pool,
    deques: u32,
) -> Result<Vec<Slot>, AllocError>
    requires { 1 ≤ deques }
    ensures { IfOk result (λ slots. AreFirst order lane pool deques slots.items) }
{
    let list = first_list(alloc, order)?;
    let mut slots = three_slots(alloc, list, lane, pool)?;
    add_empty_lanes(alloc, &mut slots, deques - 1)?;
    Ok(slots)
}

/// The slots of a hall in which nothing was done, and its first seat, which is that of the worker 0 and has the places of all workers.
/// Nobody owns the one deque, and the root is alone in it.
///
/// # Errors
///
/// There is not enough memory.
pub fn open_row(
    alloc: Global,
    key: HallKey,
    order: Order,
    lane: Lane<Boxed<Thread>>,
    pool: Pool,
) -> Result<(HallRow, HallPlace), AllocError>
    requires key { IsKey key }
    requires order { (order.places ≡ first_place ∷ []) × (order.most ≡ key.deques) }
    requires some_deque { 1 ≤ key.deques }
    requires root { IsRootAlone (table_of key) (quota_of key) lane.items }
    requires pool { (pool.live ≡ 0) × (pool.capacity ≡ key.capacity) }
    ensures seat { IfOk result (λ made. IsSeatOf made.0 made.1) }
    ensures key { IfOk result (λ made. key_of made.0 ≡ key) }
    ensures slots { IfOk result (λ made. slot_count made.0 ≡ key.deques + 2) }
    ensures note { IfOk result (λ made. made.1.hand ≡ fresh (first_note key.workers)) }
{
    let slots = first_slots(alloc, order, lane, pool, key.deques)?;
    match HallRow::new::<Brand>(alloc, slots, key) {
        Ok(made) => Ok(made),
        Err((_, error)) => Err(error),
    }
}
