ghost use Rattle.std.specs.Prelude.{◌≡◌, ℕ, ◌≤◌, ◌<◌, ◌^◌, ◌++◌, ◌⊎◌, [], ◌∷◌, length, OnOk, IfOk, IfErr, IfSome, Err};

use crate::birth::{Birth, Births};
use crate::label::Label;
use crate::thread_id::ThreadId;
use containers::BoundedList;
use std::alloc::{AllocError, Global};
use std::marker::Model;

/// Why a [`Roster`] gives no label.
#[derive(Clone, Copy, PartialEq, Eq, Debug)]
pub enum RosterFail {
    /// This is the first thread on the way to the root that has no birth.
    Unknown(ThreadId),
    OutOfMemory,
}

impl From<AllocError> for RosterFail {
    ghost use Rattle.std.specs.Prelude.{◌≡◌};
    ghost use Rattle.dag_order.specs.declared.roster.RosterFail.TheVariants.{OutOfMemory};

    ghost from_gives = { λ _ fail. fail ≡ OutOfMemory };

    fn from(_error: AllocError) -> RosterFail {
        RosterFail::OutOfMemory
    }
}

/// The births of the threads, by the periods in which they were forked.
///
/// Contracts see a roster as a list of lists of births: first those of period 1, in order, then those of
/// period 2, and so on. Each parent is the root, or was born in an earlier period or earlier in the same
/// one; so the way from a thread over its parents ends.
#[derive(Debug, Drop)]
pub struct Roster {
    periods: BoundedList<Births>,
    alloc: Global,
}

impl Model for Roster {
    ghost use Rattle.std.specs.Prelude.{List, map};
    ghost use Rattle.containers.specs.BoundedList.{entries};
    ghost use Rattle.dag_order.specs.declared.birth.Birth.{Birth};
    ghost use Rattle.dag_order.specs.Births.{ParentsComeFirst};

    ghost Value = { List (List Birth) };

    ghost view = { λ roster. map (λ births. entries births) (entries roster.periods) };

    ghost invariant = { λ roster. ParentsComeFirst (map (λ births. entries births) (entries roster.periods)) };
}

impl Roster {
    ghost use Rattle.containers.specs.BoundedList.{entries};
    ghost use Rattle.dag_order.specs.Births.{birth_of, ParentComesFirst, MayFollow, root, Leads, HasLabel, StopsAt};

    /// A roster of no period. It takes no memory.
    pub fn new(alloc: Global) -> Roster
        ensures { result ≡ [] }
    {
        Roster {
            periods: BoundedList::new(alloc),
            alloc,
        }
    }

    /// How many periods were added.
    pub fn periods(&self) -> u32
        ensures { result ≡ length self.now }
    {
        self.periods.len()
    }

    /// Adds the births of the next period. Each parent is the root, or was born in an earlier period or
    /// earlier in this one. The births come back where no memory is left.
    pub fn add_period(&mut self, births: Births) -> Result<(), (Births, AllocError)>
        requires { MayFollow self.old (entries births) }
        ensures ok { OnOk result (self.new ≡ self.old ++ entries births ∷ []) }
        ensures err { IfErr result (λ e. (e.0 ≡ births) × (self.new ≡ self.old)) }
    {
        if let Err(error) = self.periods.reserve() {
            return Err((births, error));
        }
        self.periods.add(births);
        Ok(())
    }

    /// The birth of a thread; None exactly where it has none, as the root has.
    pub fn birth(&self, id: ThreadId) -> Option<Birth>
        ensures birth { result ≡ birth_of self.now id }
        ensures parent { IfSome result (λ birth. ParentComesFirst self.now id birth) }
    {
        let before = id.period.checked_sub(1)?;
        let births = self.periods.at(before)?;
        births.at(id.nth).copied()
    }

    /// The label of a thread: the ordinals of the births on the way from the root down to it.
    ///
    /// `Unknown` carries the first thread on the way to the root that has no birth, and comes exactly where
    /// there is one.
    pub fn label(&self, id: ThreadId) -> Result<Label, RosterFail>
        ensures label { IfOk result (λ label. HasLabel self.now id label) }
        ensures unknown { (unknown : ThreadId) → result ≡ Err (RosterFail.Unknown unknown) → StopsAt self.now id unknown }
        ensures stops { (unknown : ThreadId) → StopsAt self.now id unknown → (result ≡ Err (RosterFail.Unknown unknown))
            ⊎ (result ≡ Err RosterFail.OutOfMemory) }
    {
        let mut ordinals = self.ordinals_up(id)?.into_vec();
        ordinals.reverse();
        Ok(Label::from_ordinals(BoundedList::from_vec(ordinals)))
    }

    // The ordinals of the births on the way from a thread up to the root, that of the thread first.
    fn ordinals_up(&self, id: ThreadId) -> Result<BoundedList<u32>, RosterFail>
        ensures way { IfOk result (λ way. Leads self.now id (entries way) root) }
        ensures unknown { (unknown : ThreadId) → result ≡ Err (RosterFail.Unknown unknown) → StopsAt self.now id unknown }
    {
        let mut ordinals = BoundedList::new(self.alloc);
        let mut at = id;
        'way: while at != ThreadId::ROOT {
            let Some(birth) = self.birth(at) else {
                return Err(RosterFail::Unknown(at));
            };
            ordinals.reserve()?;
            ordinals.add(birth.ordinal);
            at = birth.parent;
        }
        Ok(ordinals)
    }
}
