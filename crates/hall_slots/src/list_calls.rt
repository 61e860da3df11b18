//! What the calls on the list do.

ghost use Rattle.std.specs.Prelude.{◌≡◌, ◌≤◌, ◌<◌, ◌∷◌, ◌++◌, [], ℕ, Option, Some, slice_get, ◌↔◌, IsTrue, IfOk, OnErr, MatchOption};
ghost use Rattle.space_ledger.specs.BooksList.{books_spare};
ghost use Rattle.deque_machine.specs.Lists.{times};
ghost use Rattle.list_changes.specs.Parts.{Has};
ghost use Rattle.hall_machine.specs.Numbers.{IsSmallestNumber};
ghost use Rattle.hall_slots.specs.ListCalls.{end_kept, IsOutOf, ShowsUnowned, ShowsWithout, HasNoOwner, IsGone, KeepsRest};

use crate::lane_slot::Running;
use crate::list_slot::ListSlot;
use deque_list::DequeId;
use play_rules::{RunEnd, Stop};
use std::alloc::AllocError;

impl ListSlot {
    /// Keeps a stop, unless an end is kept already. Returns the end that is kept then.
    pub fn keep(&mut self, stop: Stop) -> RunEnd
        ensures kept { result ≡ end_kept self.old.end stop }
        ensures end { self.new ≡ record self.old { end = Some result } }
    {
        let kept = match self.end {
            Some(end) => end,
            None => RunEnd::Stopped(stop),
        };
        self.end = Some(kept);
        kept
    }

    /// Whether a worker is in.
    pub fn has(&self, worker: u32) -> bool
        ensures { IsTrue result ↔ (0 < times worker self.now.crew.items) }
    {
        place_in(&self.crew, worker).is_some()
    }

    /// The smallest number below `workers` of a worker that is not in.
    fn free_number(&self, workers: u32) -> u32
        requires { (worker : ℕ) × IsSmallestNumber workers self.now.crew.items worker }
        ensures { IsSmallestNumber workers self.now.crew.items result }
    {
        'numbers: for worker in 0..workers {
            if !self.has(worker) {
                return worker;
            }
        }
        unreachable!()
    }

    /// Lets a worker in, under the smallest number below `workers` that is free, and returns this number.
    ///
    /// # Errors
    ///
    /// There is not enough memory. Nothing is changed.
    pub fn enter(&mut self, workers: u32) -> Result<u32, AllocError>
        requires { (worker : ℕ) × IsSmallestNumber workers self.old.crew.items worker }
        ensures number { IfOk result (λ worker. IsSmallestNumber workers self.old.crew.items worker) }
        ensures crew { IfOk result (λ worker. self.new.crew.items ≡ self.old.crew.items ++ worker ∷ []) }
        ensures err { OnErr result (self.new.crew.items ≡ self.old.crew.items) }
        ensures part { self.new.part ≡ self.old.part }
        ensures end { self.new.end ≡ self.old.end }
    {
        let worker = self.free_number(workers);
        match self.crew.push(worker) {
            Ok(()) => Ok(worker),
            Err(_) => Err(AllocError),
        }
    }

    /// Lets a worker out.
    pub fn leave(&mut self, worker: u32)
        requires { 0 < times worker self.old.crew.items }
        ensures crew { IsOutOf worker self.old.crew.items self.new.crew.items }
        ensures part { self.new.part ≡ self.old.part }
        ensures end { self.new.end ≡ self.old.end }
    {
        let Some(place) = place_in(&self.crew, worker) else {
            unreachable!();
        };
        self.crew.remove(place);
    }

    /// Takes the owner of a deque away, and closes its period. It takes no memory.
    pub fn give_up(&mut self, id: DequeId, running: Running)
        requires has { (owner : Option ℕ) × Has self.old.part.order.places id owner }
        requires room { 1 ≤ books_spare self.old.part.books }
        ensures shown { ShowsUnowned self.old self.new id running }
        ensures places { HasNoOwner id self.old.part.order.places self.new.part.order.places }
        ensures rest { KeepsRest self.old self.new }
    {
        let Running { period, .. } = running;
        self.part.give_up(id, period);
    }

    /// Takes a deque out of the list, and closes its period. It takes no memory.
    pub fn remove(&mut self, id: DequeId, running: Running)
        requires has { (owner : Option ℕ) × Has self.old.part.order.places id owner }
        requires room { 1 ≤ books_spare self.old.part.books }
        ensures shown { ShowsWithout self.old self.new id running }
        ensures places { IsGone id self.old.part.order.places self.new.part.order.places }
        ensures rest { KeepsRest self.old self.new }
    {
        let Running { period, .. } = running;
        self.part.remove(id, period);
    }
}

/// The place of a worker in a crew; None exactly where it is not in.
fn place_in(crew: &[u32], worker: u32) -> Option<usize>
    ensures { MatchOption result (times worker crew.now ≡ 0) (λ place. slice_get crew.now place ≡ Some worker) }
{
    'places: for (place, &other) in crew.iter().enumerate() {
        if other == worker {
            return Some(place);
        }
    }
    None
}
