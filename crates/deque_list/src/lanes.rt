ghost use Rattle.std.specs.Prelude.{◌≡◌, ℕ, ◌+◌, ◌-◌, ◌<◌, ◌≤◌, length, replicate, slice_get, slice_set, Some, None, IfOk, OnOk, Option};
ghost use Rattle.deque_list.specs.LaneTables.{HasLane};
ghost use Rattle.deque_list.specs.Lanes.{LaneView};

use crate::lane::Lane;
use slab::Slab;
use std::alloc::{AllocError, Global};
use std::marker::Model;

// The lanes of the deques, which a slab stores, by the deques' ids. The keys that the slab picks stay inside.
#[derive(Drop)]
pub(crate) struct Lanes<T> {
    slab: Slab<Lane<T>>,
    keys: Vec<Option<usize>>,
}

impl<T> Model for Lanes<T> {
    ghost use Rattle.deque_list.specs.LaneTables.{LaneTable, table_code};

    ghost Value = { LaneTable T };

    ghost coded = { table_code T.code };

    ghost use Rattle.std.specs.Prelude.{map, ◌-◌};
    ghost use Rattle.slab.specs.Slab.{slab_len};
    ghost use Rattle.deque_list.specs.LaneTables.{stored, IsKeyed};

    ghost view = { λ table. record {
      lanes = map (stored table.slab) table.keys.items;
      room = table.slab.capacity - slab_len table.slab;
    } };

    ghost invariant = { λ table. IsKeyed table.slab table.keys.items };
}

impl<T> Lanes<T> {
    ghost use Rattle.std.specs.Borrow.{sem};
    ghost use Rattle.deque_list.specs.TableLends.{lends_lane};

    // No lanes, for ids below `most`, and room for one.
    pub(crate) fn new(alloc: Global, most: u32) -> Result<Lanes<T>, AllocError>
        ensures lanes { IfOk result (λ table. table.lanes ≡ replicate most None) }
        ensures room { IfOk result (λ table. 1 ≤ table.room) }
    {
        let keys = vec![in alloc; None; most as usize]?;
        let slab = Slab::with_capacity(alloc, 1)?;
        Ok(Lanes { slab, keys })
    }

    // Makes room for one more lane.
    pub(crate) fn reserve(&mut self) -> Result<(), AllocError>
        ensures lanes { self.new.lanes ≡ self.old.lanes }
        ensures room { OnOk result (1 ≤ self.new.room) }
        ensures keeps_room { self.old.room ≤ self.new.room }
    {
        self.slab.reserve(1)
    }

    // Puts a lane under an id that has none.
    pub(crate) fn put(&mut self, id: u32, lane: Lane<T>)
        requires free { slice_get self.old.lanes id ≡ Some None }
        requires room { 1 ≤ self.old.room }
        ensures { self.new.lanes ≡ slice_set self.old.lanes id (Some lane) }
    {
        let key = self.slab.insert_reserved(lane);
        self.keys[id as usize] = Some(key);
    }

    // Takes the lane of an id away.
    pub(crate) fn take(&mut self, id: u32) -> Lane<T>
        requires { HasLane self.old id }
        ensures lane { slice_get self.old.lanes id ≡ Some (Some result) }
        ensures rest { self.new.lanes ≡ slice_set self.old.lanes id None }
        ensures keeps_room { self.old.room ≤ self.new.room }
    {
        let key = key_at(&self.keys, id);
        self.keys[id as usize] = None;
        self.slab.remove(key)
    }

    // The lane of an id.
    pub(crate) fn lane(&self, id: u32) -> &Lane<T>
        requires { HasLane self.now id }
        ensures { slice_get self.now.lanes id ≡ Some (Some result.now) }
    {
        &self.slab[key_at(&self.keys, id)]
    }

    // The lane of an id for writing.
    pub(crate) fn lane_mut(&mut self, id: u32) -> &mut Lane<T>
        requires { HasLane self.old id }
        ensures* writes_back { sem 𝓛 (lends_lane T.row self.entry id result) }
        ensures value { slice_get self.old.lanes id ≡ Some (Some result.now) }
    {
        let key = key_at(&self.keys, id);
        &mut self.slab[key]
    }
}

// The key that stands for an id.
fn key_at(keys: &[Option<usize>], id: u32) -> usize
    requires { (key : ℕ) × (slice_get keys.now id ≡ Some (Some key)) }
    ensures { slice_get keys.now id ≡ Some (Some result) }
{
    match keys[id as usize] {
        Some(key) => key,
        None => unreachable!(),
    }
}
