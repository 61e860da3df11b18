ghost use Rattle.std.specs.Prelude.{◌≡◌, ◌<◌, ◌≤◌, ◌+◌, ◌^◌, ◌↔◌, ℕ, List as AnyList, [], length, get_or, None, Some, true, false, IfOk, IsOk, IfSome, IsTrue, MatchOption, pos, ◌≤ℤ◌};
ghost use Rattle.containers.specs.BoundedList.{entries};
ghost use Rattle.dag_order.specs.declared.kind.Kind.TheVariants as kinds;
ghost use Rattle.deque_list.specs.Deques.{deque_ids};
ghost use Rattle.deque_list.specs.Ids.{IsLive};
ghost use Rattle.language_limits.specs.declared.TheConstants.{MOST_DEQUES};
ghost use Rattle.deque_machine.specs.Books.{booked};
ghost use Rattle.deque_machine.specs.Moments.{Moment, opening};
ghost use Rattle.deque_machine.specs.Machine.{Setting, HasEnded};
ghost use Rattle.deque_machine.specs.Play.{Limits};
ghost use Rattle.deque_machine.specs.Runs.{Pair};
ghost use Rattle.trail_meaning.specs.declared.trail_kind.TrailKind.TheVariants.{Steal, Act, Suspend, GiveUp};

use crate::charges::charge;
use crate::deque_moves::{give_up, go_on, go_on_unowned, leave, put_child, top};
use crate::seat::Seat;
use crate::step::Step;
use crate::tally::Tally;
use crate::terms::Terms;
use crate::writing::write;
use dag_order::Kind;
use deque_list::{DequeId, InsertRefused, List};
use serial_journal::Actions;
use std::alloc::{AllocError, Global};
use trail_meaning::{TrailEvent, TrailKind, TrailNumbers};

/// A recorded play that is followed event by event.
#[derive(Drop)]
pub struct Checker {
    /// The depth-first list.
    pub(crate) actions: Actions,
    /// The partner of each of its places.
    pub(crate) partners: Vec<Option<u32>>,
    /// The quota, in words.
    pub(crate) quota: u32,
    pub(crate) workers: u32,
    /// The most words in use at once.
    pub(crate) arena: u32,
    /// The most actions.
    pub(crate) steps: u32,
    /// The most deques.
    pub(crate) most: u32,
    /// The threads that do not wait, each by the place of its next action.
    pub(crate) deques: List<u32>,
    /// What each worker has, or None if it is idle.
    pub(crate) seats: Vec<Option<Seat>>,
    /// Whether a thread waits at the Join at each place.
    pub(crate) waits: Vec<bool>,
    pub(crate) tally: Tally,
}

impl Checker {
    ghost use Rattle.trail_check.specs.Verdicts.{AreNumbers};
    ghost use Rattle.trail_check.specs.Standing.{StandsFor, IsStanding};
    ghost use Rattle.trail_check.specs.Given.{IsGiven};
    ghost use Rattle.trail_check.specs.Tallies.{IsFew};
    ghost use Rattle.trail_check.specs.Steps.{told_of, Came, Followed, NoAction, IsStep, IsAlone, CanSteal, Owes, has_ended_by, UsedAfter};

    /// A checker before the first event, of a depth-first list with the partners of its places.
    ///
    /// # Errors
    ///
    /// `AllocError` if there is not enough memory.
    pub fn new(
        alloc: Global,
        actions: Actions,
        partners: Vec<Option<u32>>,
        terms: Terms,
    ) -> Result<Checker, AllocError>
        requires { (1 ≤ terms.deques) × (terms.deques ≤ MOST_DEQUES) }
        ensures { (s : Setting) (limits : Limits) → IsGiven s limits (entries actions) partners.items terms
            → IfOk result (λ checker. StandsFor s limits [] opening checker) }
    {
        let Ok(deques) = List::new(alloc, 0, terms.deques) else {
            return Err(AllocError);
        };
        let places = actions.len() as usize;
        Ok(Checker {
            seats: vec![in alloc; None; terms.workers as usize]?,
            waits: vec![in alloc; false; places]?,
            tally: Tally::new(alloc, places)?,
            actions,
            partners,
            quota: terms.quota,
            workers: terms.workers,
            arena: terms.arena,
            steps: terms.steps,
            most: terms.deques,
            deques,
        })
    }

    /// Whether the root has ended.
    pub fn has_ended(&self) -> bool
        ensures { (s : Setting) (limits : Limits) (run : AnyList Pair) (m : Moment) → StandsFor s limits run m self.now
            → IsTrue result ↔ HasEnded s m [] }
    {
        let places = self.actions.len();
        if places == 0 {
            return false;
        }
        self.tally.is_done(places - 1)
    }

    /// The numbers of the run so far.
    pub fn numbers(&self) -> TrailNumbers
        ensures { (s : Setting) (limits : Limits) (run : AnyList Pair) (m : Moment) → StandsFor s limits run m self.now
            → AreNumbers s run m result }
    {
        self.tally.numbers
    }

    /// How many actions are done.
    pub fn actions_done(&self) -> u32
        ensures { (s : Setting) (limits : Limits) (run : AnyList Pair) (m : Moment) → StandsFor s limits run m self.now
            → result ≡ length (booked m.books) }
    {
        self.tally.actions
    }

    /// Takes the next event of the trail. The answer is whether it leads on.
    ///
    /// # Errors
    ///
    /// `AllocError` if a deque needs memory and there is none, or exactly where 63 bits do not count the words in use after the event
    /// (`many` of `Tally::act`). A steal beyond the limit of deques is no such error.
    pub fn follow(&mut self, told: TrailEvent) -> Result<bool, AllocError>
        requires { IsStanding self.old }
        ensures full { (place : ℕ) → told.kind ≡ Steal place → length self.old.deques.deques ≡ self.old.deques.most → IsOk result }
        ensures followed { (s : Setting) (limits : Limits) (run : AnyList Pair) (m : Moment) → StandsFor s limits run m self.old
            → IfOk result (λ leads. Followed s limits run m told leads self.new) }
    {
        if !self.take(told)? {
            return Ok(false);
        }
        Ok(self.is_within())
    }

    // Takes the next event, whatever the limits of words and actions say of it.
    fn take(&mut self, told: TrailEvent) -> Result<bool, AllocError>
        requires { IsStanding self.old }
        ensures full { (place : ℕ) → told.kind ≡ Steal place → length self.old.deques.deques ≡ self.old.deques.most → IsOk result }
        ensures came { (s : Setting) (limits : Limits) (run : AnyList Pair) (m : Moment) → StandsFor s limits run m self.old
            → IfOk result (λ came. Came s limits run m told came self.new) }
    {
        match told.kind {
            TrailKind::Steal(place) => self.steal(told.worker, place),
            TrailKind::Act => self.act(told.worker),
            TrailKind::Suspend => Ok(self.suspend(told.worker)),
            TrailKind::GiveUp => Ok(self.give_up(told.worker)),
        }
    }

    // A worker takes the bottom thread of the deque at a place.
    fn steal(&mut self, worker: u32, place: u32) -> Result<bool, AllocError>
        requires { IsStanding self.old }
        ensures full { length self.old.deques.deques ≡ self.old.deques.most → IsOk result }
        ensures came { (s : Setting) (limits : Limits) (run : AnyList Pair) (m : Moment) → StandsFor s limits run m self.old
            → IfOk result (λ came. Came s limits run m (told_of worker (Steal place)) came self.new) }
    {
        if self.workers <= worker {
            return Ok(false);
        }
        if self.workers <= place {
            return Ok(false);
        }
        if self.seat(worker).is_some() {
            return Ok(false);
        }
        let Some(victim) = self.deques.place(place) else {
            return Ok(false);
        };
        if 2 <= self.deques.lane(victim.id).len() {
            return self.steal_beside(worker, place, victim.id);
        }
        if victim.owner.is_some() {
            return Ok(false);
        }
        self.take_over(worker, place, victim.id);
        Ok(true)
    }

    // A worker takes the bottom thread of a deque, which keeps another one, into a new deque to the right of it. If there are as many deques as
    // may be, it may not.
    fn steal_beside(&mut self, worker: u32, place: u32, victim: DequeId) -> Result<bool, AllocError>
        requires live { IsLive (deque_ids self.old.deques.deques) victim }
        requires few { IsFew self.old.tally }
        ensures full { length self.old.deques.deques ≡ self.old.deques.most → IsOk result }
        ensures came { (s : Setting) (limits : Limits) (run : AnyList Pair) (m : Moment) → StandsFor s limits run m self.old
            → (can : CanSteal s m self.old worker place victim) → 2 ≤ length can.items
            → IfOk result (λ came. Came s limits run m (told_of worker (Steal place)) came self.new) }
    {
        let Some(bottom) = self.deques.take_bottom(victim) else {
            return Ok(false);
        };
        let id = match self.deques.insert_right(victim, bottom, worker) {
            Ok(id) => id,
            Err((_, InsertRefused::Full { deques: _ })) => return Ok(false),
            Err((_, InsertRefused::OutOfMemory)) => return Err(AllocError),
        };
        self.tally.begin(true);
        write(&mut self.seats, worker, Some(Seat { deque: id, used: 0 }));
        Ok(true)
    }

    // A worker takes over a deque of one thread that has no owner.
    fn take_over(&mut self, worker: u32, place: u32, victim: DequeId)
        requires live { (rank : ℕ) × (deque : Rattle.deque_list.specs.Deques.Deque ℕ)
            × Rattle.deque_list.specs.Deques.DequeAt self.old.deques.deques victim rank deque × (deque.owner ≡ None) }
        requires few { IsFew self.old.tally }
        ensures { (s : Setting) (limits : Limits) (run : AnyList Pair) (m : Moment) → StandsFor s limits run m self.old
            → (can : CanSteal s m self.old worker place victim) → length can.items < 2 → can.owner ≡ None
            → Came s limits run m (told_of worker (Steal place)) true self.new }
    {
        self.deques.take_over(victim, worker);
        self.tally.begin(0 < place);
        let seat = Seat {
            deque: victim,
            used: 0,
        };
        write(&mut self.seats, worker, Some(seat));
    }

    // The top thread of the worker's deque does its next action.
    fn act(&mut self, worker: u32) -> Result<bool, AllocError>
        requires { IsStanding self.old }
        ensures { (s : Setting) (limits : Limits) (run : AnyList Pair) (m : Moment) → StandsFor s limits run m self.old
            → IfOk result (λ came. Came s limits run m (told_of worker Act) came self.new) }
    {
        let Some(step) = self.next_step(worker) else {
            return Ok(false);
        };
        match step.kind {
            Kind::Fork => self.fork(step),
            Kind::End => self.end(step),
            Kind::Dummy => self.run_dummy(step),
            Kind::Join => self.do_alone(step),
            Kind::Alloc => self.do_alone(step),
            Kind::Release => self.do_alone(step),
            Kind::Fault => self.do_alone(step),
        }
    }

    // The next action of the worker's top thread, or None if it may not come.
    fn next_step(&self, worker: u32) -> Option<Step>
        requires { IsStanding self.now }
        ensures inside { IfSome result (λ step. step.place < length (entries self.now.actions)) }
        ensures worker { IfSome result (λ step. step.worker ≡ worker) }
        ensures step { (s : Setting) (limits : Limits) (run : AnyList Pair) (m : Moment) → StandsFor s limits run m self.now
            → MatchOption result (NoAction s m worker) (λ step. IsStep s m self.now step) }
    {
        let Some(seat) = self.seat(worker) else {
            return None;
        };
        let Some(place) = top(&self.deques, seat.deque) else {
            return None;
        };
        let Some(action) = self.actions.at(place) else {
            return None;
        };
        let (kind, change) = (action.kind, action.change);
        let Some(used) = self.used_after(seat.used, place, kind, change) else {
            return None;
        };
        Some(Step {
            worker,
            place,
            kind,
            change,
            seat: Seat {
                deque: seat.deque,
                used,
            },
        })
    }

    // What the period has used of its quota after an action, or None if the action may not come.
    fn used_after(&self, used: u32, place: u32, kind: Kind, change: i64) -> Option<u32>
        ensures { UsedAfter self.now used place kind change result }
    {
        if kind == Kind::Join && !self.child_has_ended(place) {
            return None;
        }
        let after = u64::from(used) + u64::from(charge(self.quota, kind, change));
        if u64::from(self.quota) < after {
            return None;
        }
        Some(after as u32)
    }

    // A Fork puts the child on top. The parent goes on after the End of the child.
    fn fork(&mut self, step: Step) -> Result<bool, AllocError>
        requires live { IsLive (deque_ids self.old.deques.deques) step.seat.deque }
        requires inside { step.place < length (entries self.old.actions) }
        requires few { IsFew self.old.tally }
        ensures { (s : Setting) (limits : Limits) (run : AnyList Pair) (m : Moment) → StandsFor s limits run m self.old
            → IsStep s m self.old step → step.kind ≡ kinds.Fork
            → IfOk result (λ came. Came s limits run m (told_of step.worker Act) came self.new) }
    {
        let Some(end) = self.partner(step.place) else {
            return Ok(false);
        };
        let Some(parent) = end.checked_add(1) else {
            return Ok(false);
        };
        put_child(&mut self.deques, step.seat.deque, parent, step.place + 1)?;
        self.tally.act(step.place, step.change)?;
        write(&mut self.seats, step.worker, Some(step.seat));
        Ok(true)
    }

    // An action after which the thread goes on.
    fn do_alone(&mut self, step: Step) -> Result<bool, AllocError>
        requires live { IsLive (deque_ids self.old.deques.deques) step.seat.deque }
        requires inside { step.place < length (entries self.old.actions) }
        requires few { IsFew self.old.tally }
        ensures { (s : Setting) (limits : Limits) (run : AnyList Pair) (m : Moment) → StandsFor s limits run m self.old
            → IsStep s m self.old step → IsAlone step.kind
            → IfOk result (λ came. Came s limits run m (told_of step.worker Act) came self.new) }
    {
        go_on(&mut self.deques, step.seat.deque, step.place + 1);
        self.tally.act(step.place, step.change)?;
        write(&mut self.seats, step.worker, Some(step.seat));
        Ok(true)
    }

    // With a Dummy the period ends, and the deque stays without an owner.
    fn run_dummy(&mut self, step: Step) -> Result<bool, AllocError>
        requires live { IsLive (deque_ids self.old.deques.deques) step.seat.deque }
        requires inside { step.place < length (entries self.old.actions) }
        requires few { IsFew self.old.tally }
        ensures { (s : Setting) (limits : Limits) (run : AnyList Pair) (m : Moment) → StandsFor s limits run m self.old
            → IsStep s m self.old step → step.kind ≡ kinds.Dummy
            → IfOk result (λ came. Came s limits run m (told_of step.worker Act) came self.new) }
    {
        go_on_unowned(&mut self.deques, step.seat.deque, step.place + 1);
        self.tally.act(step.place, step.change)?;
        write(&mut self.seats, step.worker, None);
        Ok(true)
    }

    // At the End of a thread its parent goes on, if it waits for this child or stands below. Otherwise the deque leaves the list.
    fn end(&mut self, step: Step) -> Result<bool, AllocError>
        requires live { IsLive (deque_ids self.old.deques.deques) step.seat.deque }
        requires few { IsFew self.old.tally }
        ensures { (s : Setting) (limits : Limits) (run : AnyList Pair) (m : Moment) → StandsFor s limits run m self.old
            → IsStep s m self.old step → step.kind ≡ kinds.End
            → IfOk result (λ came. Came s limits run m (told_of step.worker Act) came self.new) }
    {
        self.tally.act(step.place, step.change)?;
        if let Some(join) = self.waiting_parent(step.place) {
            go_on(&mut self.deques, step.seat.deque, join);
            write(&mut self.waits, join, false);
            write(&mut self.seats, step.worker, Some(step.seat));
            return Ok(true);
        }
        if leave(&mut self.deques, step.seat.deque) {
            write(&mut self.seats, step.worker, None);
            return Ok(true);
        }
        write(&mut self.seats, step.worker, Some(step.seat));
        Ok(true)
    }

    // The thread on top of the worker's deque begins to wait for a child that has not ended.
    fn suspend(&mut self, worker: u32) -> bool
        requires { IsStanding self.old }
        ensures { (s : Setting) (limits : Limits) (run : AnyList Pair) (m : Moment) → StandsFor s limits run m self.old
            → Came s limits run m (told_of worker Suspend) result self.new }
    {
        let Some(seat) = self.seat(worker) else {
            return false;
        };
        let Some(place) = top(&self.deques, seat.deque) else {
            return false;
        };
        if !self.has_to_wait(place) {
            return false;
        }
        if !leave(&mut self.deques, seat.deque) {
            return false;
        }
        write(&mut self.waits, place, true);
        write(&mut self.seats, worker, None);
        true
    }

    // The worker leaves its deque.
    fn give_up(&mut self, worker: u32) -> bool
        requires { IsStanding self.old }
        ensures { (s : Setting) (limits : Limits) (run : AnyList Pair) (m : Moment) → StandsFor s limits run m self.old
            → Came s limits run m (told_of worker GiveUp) result self.new }
    {
        let Some(seat) = self.seat(worker) else {
            return false;
        };
        give_up(&mut self.deques, seat.deque);
        write(&mut self.seats, worker, None);
        true
    }

    // What the worker has, or None if it is idle.
    fn seat(&self, worker: u32) -> Option<Seat>
        ensures { result ≡ get_or self.now.seats.items worker None }
    {
        match self.seats.get(worker as usize) {
            Some(seat) => *seat,
            None => None,
        }
    }

    // The partner of a place.
    fn partner(&self, place: u32) -> Option<u32>
        ensures { result ≡ get_or self.now.partners.items place None }
    {
        match self.partners.get(place as usize) {
            Some(partner) => *partner,
            None => None,
        }
    }

    // Whether the child has ended that is joined at a place.
    fn child_has_ended(&self, join: u32) -> bool
        ensures { result ≡ has_ended_by self.now join }
    {
        match self.partner(join) {
            Some(end) => self.tally.is_done(end),
            None => false,
        }
    }

    // Whether the action at a place is a Join of a child that has not ended.
    fn has_to_wait(&self, place: u32) -> bool
        ensures { Owes self.now place result }
    {
        let Some(action) = self.actions.at(place) else {
            return false;
        };
        if action.kind != Kind::Join {
            return false;
        }
        !self.child_has_ended(place)
    }

    // The place at which the parent waits of the thread that ends at a place, if it waits.
    fn waiting_parent(&self, end: u32) -> Option<u32>
        ensures { MatchOption result ((join : ℕ) → get_or self.now.partners.items end None ≡ Some join → get_or self.now.waits.items join false ≡ false)
            (λ join. (get_or self.now.partners.items end None ≡ Some join) × (get_or self.now.waits.items join false ≡ true)) }
    {
        let Some(join) = self.partner(end) else {
            return None;
        };
        if self.is_waiting(join) {
            return Some(join);
        }
        None
    }

    // Whether a thread waits at the Join at a place.
    fn is_waiting(&self, join: u32) -> bool
        ensures { result ≡ get_or self.now.waits.items join false }
    {
        match self.waits.get(join as usize) {
            Some(waits) => *waits,
            None => false,
        }
    }

    // Whether the limits hold.
    fn is_within(&self) -> bool
        ensures { IsTrue result ↔ ((self.now.tally.live ≤ℤ pos self.now.arena) × (self.now.tally.actions ≤ self.now.steps)
            × (length self.now.deques.deques ≤ self.now.most)) }
    {
        self.tally.live <= i64::from(self.arena)
            && self.tally.actions <= self.steps
            && self.deques.len() <= self.most
    }
}
