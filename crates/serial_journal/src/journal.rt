ghost use Rattle.std.specs.Prelude.{◌≡◌, ℕ, suc, ◌+◌, ◌≤◌, ◌<◌, ◌^◌, [], ◌∷◌, ◌++◌, List, length, IfOk, OnOk, OnErr, MatchResult, Ok, Err};
ghost use Rattle.std.specs.Prelude.{pos, ◌+ℤ◌, FitsSigned};
ghost use Rattle.std.specs.Int.{int_max, w64};
ghost use Rattle.depth_first_run.specs.Passed.Actions.{Action as AnyAction, Deed, kind_of, weight_of};
ghost use Rattle.serial_journal.specs.Stops.{OnStop};

use crate::action::{Action, Actions};
use crate::serial::Serial;
use crate::serial_stop::SerialStop;
use containers::BoundedList;
use dag_order::{ActionId, Birth, Births, Finish, Kind, Lines, ThreadId};
use std::alloc::Global;

/// What is written down of a depth-first run as it goes on.
#[derive(Drop)]
pub struct Journal {
    actions: Actions,
    births: Births,
    live: i64,
    peak: u64,
    limit: u32,
    ghost small: { peak < 9223372036854775808 },
}

impl Journal {
    ghost use Rattle.containers.specs.BoundedList.{entries};
    ghost use Rattle.dag_order.specs.Births.{HasLabel};
    ghost use Rattle.dag_order.specs.LabelOrder.{fork_of};
    ghost use Rattle.depth_first_run.specs.Passed.Actions.{forks};
    ghost use Rattle.depth_first_run.specs.States.{Item};
    ghost use Rattle.depth_first_run.specs.Run.{actions_of, finish_of, first_fault, lines_of};
    ghost use Rattle.serial_journal.specs.Telling.{Tells, IsNoFork};
    ghost use Rattle.serial_journal.specs.Journals.{KeepsUp, KeepsLabels, IsUnchanged, Recorded, births_of, action_named};

    /// A journal of no action, which takes at most `limit` of them. It takes no memory.
    pub fn new(alloc: Global, limit: u32) -> Journal
        ensures keeps_up { KeepsUp limit [] result }
        ensures births { births_of result ≡ [] }
    {
        Journal {
            actions: BoundedList::new(alloc),
            births: BoundedList::new(alloc),
            live: 0,
            peak: 0,
            limit,
        }
    }

    /// A thread does an action that is no Fork, of so many words. After an error nothing is changed, here and in the other calls.
    ///
    /// # Errors
    ///
    /// `StepsSpent` exactly where the limit is reached.
    pub fn act(&mut self, name: ActionId, kind: Kind, words: u64) -> Result<(), SerialStop>
        ensures unchanged { OnErr result (IsUnchanged self.old self.new) }
        ensures births { births_of self.new ≡ births_of self.old }
        ensures keeps_up { (limit : ℕ) (actions : List AnyAction) (label : List ℕ) (deed : Deed) → KeepsUp limit actions self.old
            → HasLabel (births_of self.old ∷ []) name.by label → kind ≡ kind_of deed → IsNoFork deed
            → MatchResult result (λ _. KeepsUp limit (actions ++ action_named label name.index deed words ∷ []) self.new)
            (λ stop. OnStop stop (limit ≤ length actions)) }
    {
        let change = change_of(kind, words)?;
        self.write_down(Action { name, kind, change })
    }

    /// A thread forks the child `ordinal`, which takes a record block of so many words. The name of the child is given.
    ///
    /// # Errors
    ///
    /// `StepsSpent` exactly where the limit is reached.
    pub fn fork(&mut self, name: ActionId, ordinal: u32, words: u32) -> Result<ThreadId, SerialStop>
        ensures unchanged { OnErr result (IsUnchanged self.old self.new) }
        ensures labels { KeepsLabels (births_of self.old) (births_of self.new) }
        ensures nth { IfOk result (λ child. child.nth ≡ length (births_of self.old)) }
        ensures more { OnOk result (length (births_of self.new) ≡ suc (length (births_of self.old))) }
        ensures child { (label : List ℕ) → HasLabel (births_of self.old ∷ []) name.by label
            → IfOk result (λ child. HasLabel (births_of self.new ∷ []) child (fork_of label ordinal)) }
        ensures keeps_up { (limit : ℕ) (actions : List AnyAction) (label : List ℕ) → KeepsUp limit actions self.old
            → HasLabel (births_of self.old ∷ []) name.by label
            → MatchResult result (λ child. KeepsUp limit (actions ++ action_named label name.index (forks ordinal) words ∷ []) self.new
            × HasLabel (births_of self.new ∷ []) child (fork_of label ordinal)) (λ stop. OnStop stop (limit ≤ length actions)) }
    {
        let nth = self.births.len();
        self.births.reserve()?;
        let forks = Action {
            name,
            kind: Kind::Fork,
            change: i64::from(words),
        };
        if let Err(stop) = self.write_down(forks) {
            return Err(stop);
        }
        self.births.add(Birth {
            parent: name.by,
            ordinal,
        });
        Ok(ThreadId { period: 1, nth })
    }

    /// What the run gave, where it has ended, with its finish and its output.
    pub fn close(self, finish: Finish, output: Lines) -> Serial
        ensures { (limit : ℕ) (items : List Item) → KeepsUp limit (actions_of items) self → finish ≡ finish_of (first_fault items)
            → entries output ≡ lines_of items → Tells items result × (length (actions_of items) ≤ limit) }
    {
        Serial {
            finish,
            output,
            actions: self.actions,
            births: self.births,
            peak: self.peak,
        }
    }

    // One action more, with the words that are live behind it.
    fn write_down(&mut self, action: Action) -> Result<(), SerialStop>
        ensures births { self.new.births ≡ self.old.births }
        ensures unchanged { OnErr result (IsUnchanged self.old self.new) }
        ensures cases { MatchResult result (λ _. Recorded action self.old self.new)
            (λ stop. OnStop stop (self.old.limit ≤ length (entries self.old.actions))) }
    {
        if self.limit <= self.actions.len() {
            return Err(SerialStop::StepsSpent);
        }
        let live = raised(self.live, action.change)?;
        self.actions.reserve()?;
        self.live = live;
        self.peak = self.peak.max(above_zero(live));
        self.actions.add(action);
        Ok(())
    }
}

// A number of words, or 0 where it is below.
fn above_zero(words: i64) -> u64
    ensures value { pos result ≡ int_max (pos 0) words }
    ensures small { result < 9223372036854775808 }
{
    if words < 0 { 0 } else { words as u64 }
}

// The words that are live behind an action, where 64 bits with a sign count them. No memory is asked for.
fn raised(live: i64, change: i64) -> Result<i64, SerialStop>
    ensures sum { MatchResult result (λ sum. sum ≡ live +ℤ change) (λ stop. OnStop stop ⊥) }
    ensures many { OnErr result (FitsSigned w64 (live +ℤ change) → ⊥) }
{
    let sum = live.checked_add(change);
    sum.ok_or(SerialStop::OutOfMemory)
}

// By how many words the live words rise, where 63 bits count the words. No memory is asked for.
fn change_of(kind: Kind, words: u64) -> Result<i64, SerialStop>
    ensures many { OnErr result (2 ^ 63 ≤ words) }
    ensures change { (deed : Deed) → kind ≡ kind_of deed → MatchResult result (λ change. change ≡ weight_of deed words) (λ stop. OnStop stop ⊥) }
{
    let words = i64::try_from(words).or(Err(SerialStop::OutOfMemory))?;
    Ok(match kind {
        Kind::Alloc | Kind::Fork => words,
        Kind::Dummy => 0,
        Kind::Join | Kind::Release | Kind::Fault | Kind::End => -words,
    })
}
