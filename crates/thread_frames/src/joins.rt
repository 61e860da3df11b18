//! Deliveries and Joins: how the results of children come back.

ghost use Rattle.std.specs.Prelude.{◌≡◌, ◌≤◌, ◌<◌, ◌+◌, ℕ, Bool, List, [], ◌∷◌, length, false, IsTrue};
ghost use Rattle.thread_state.specs.Passed.States.{Setting};
ghost use Rattle.depth_first_list.specs.Facts.{words_at};
ghost use Rattle.node_table.specs.Table.{Table};
ghost use Rattle.thread_state.specs.Joins.{released, words_released};
ghost use Rattle.std.specs.Prelude.{option_copied};
ghost use Rattle.language_limits.specs.declared.TheConstants.{GREATEST_COUNT};
ghost use Rattle.thread_frames.specs.Views.{newest as newest_child, result_of};
ghost use Rattle.thread_frames.specs.Children.{place_in};
ghost use Rattle.thread_frames.specs.Joining.{JoinsState, CanJoin};

use crate::ended::Ended;
use crate::open_child::OpenChild;
use crate::prepared::Prepared;
use crate::thread::Thread;
use dag_order::ThreadId;
use std::mem;
use thread_output::Told;
use thread_stack::Branch;
use thread_state::{ReleasedRows, ThreadState};

impl Thread {
    ghost use Rattle.thread_frames.specs.Views.{Child, children_of, next_of, label_of, done_of, forks_of, thread_words, ended_words, join_words_of, newest};
    ghost use Rattle.thread_frames.specs.Children.{IsOnlyNewest, IsAwaited, with_delivered, is_delivered};
    ghost use Rattle.thread_frames.specs.Points.{IsAtPoint, IsPlaced, IsResult};
    ghost use Rattle.thread_frames.specs.Actions.{IsJoin, IsSame, HasJoined, is_there};

    /// Whether the open child of this id is delivered; false also where no open child has it.
    pub fn delivered(&self, child: ThreadId) -> bool
        ensures { result ≡ is_delivered child (children_of self.now) }
    {
        match place_of(&self.children, child) {
            Some(place) => self.children[place].ended.is_some(),
            None => false,
        }
    }

    /// The result of an open child comes to its parent, where it waits for the Join. The thread stays at its point.
    pub fn deliver(&mut self, child: Ended)
        requires awaited { IsAwaited (label_of self.old) child (children_of self.old) }
        ensures same { IsSame self.old self.new }
        ensures done { done_of self.new ≡ done_of self.old }
        ensures forks { forks_of self.new ≡ forks_of self.old }
        ensures children { children_of self.new ≡ with_delivered child.id (children_of self.old) }
        ensures next { next_of self.new ≡ next_of self.old }
        ensures words { thread_words self.new ≡ thread_words self.old + ended_words child }
        ensures joins { IsOnlyNewest child.id (children_of self.old) → join_words_of self.new ≡ released self.old.run.state child.state }
        ensures point { (t : Table) (k : ℕ) → IsAtPoint t k self.old → IsResult t k child → IsAtPoint t k self.new }
    {
        let Some(place) = place_of(&self.children, child.id) else {
            unreachable!();
        };
        self.children[place].ended = Some(child);
    }

    /// How many words the Join that is prepared gives back.
    pub fn join_releases(&self) -> u64
        requires delivered { IsTrue (is_there (newest (children_of self.now))) }
        ensures { result ≡ join_words_of self.now }
    {
        match newest_result(&self.children) {
            Some(ended) => self.run.state.join_releases(&ended.state),
            None => unreachable!(),
        }
    }

    /// What `join_releases` answers once this result is delivered, where it is that of the newest open child.
    pub fn would_release(&self, child: &Ended) -> u64
        ensures { result ≡ released self.now.run.state child.now.state }
    {
        self.run.state.join_releases(&child.state)
    }

    /// Does the Join that is prepared: what the child brings is taken in, or comes out for the pool if a fault ended the child or its
    /// parent. Returns the words that come out and the rows with them, which the caller gives to the pool.
    pub fn do_join(&mut self) -> (u64, ReleasedRows)
        requires placed { IsPlaced self.old }
        requires next { IsJoin (next_of self.old) }
        requires delivered { IsTrue (is_there (newest (children_of self.old))) }
        requires count { done_of self.old < GREATEST_COUNT }
        ensures words { result.0 ≡ join_words_of self.old }
        ensures rows { words_released result.1 ≡ join_words_of self.old }
        ensures joined { HasJoined result.0 self.old self.new }
        ensures point { (t : Table) (k : ℕ) → IsAtPoint t k self.old → IsAtPoint t k self.new }
    {
        let Prepared::Join { branch, assigned } = mem::replace(
            &mut self.prepared,
            Prepared::Nothing,
        ) else {
            unreachable!();
        };
        let Some(child) = self.children.pop() else {
            unreachable!();
        };
        let OpenChild { before, ended, .. } = child;
        let Some(ended) = ended else {
            unreachable!();
        };
        let words = self.run.state.join_releases(&ended.state);
        let rows = join_state(&mut self.run.state, branch, ended.state, &assigned);
        let alloc = *assigned.allocator();
        let own = mem::replace(&mut self.run.told, Told::new(alloc));
        self.run.told = before.then(ended.told.then(own));
        (words, rows)
    }
}

/// The place of the open child of this id, the oldest first.
fn place_of(children: &Vec<OpenChild>, id: ThreadId) -> Option<usize>
    ensures { result ≡ place_in id children.now.items }
{
    for place in 0..children.len() {
        if children[place].id == id {
            return Some(place);
        }
    }
    None
}

/// The result of the newest open child, where it is delivered.
fn newest_result(children: &Vec<OpenChild>) -> Option<&Ended>
    ensures { option_copied result ≡ result_of (newest_child children.now.items) }
{
    match children.last() {
        Some(child) => child.ended.as_ref(),
        None => None,
    }
}

/// The Join of the state of a thread; the answer is what comes out of it.
fn join_state(
    state: &mut ThreadState,
    branch: Branch,
    child: ThreadState,
    assigned: &[u16],
) -> ReleasedRows
    requires count { state.old.done < GREATEST_COUNT }
    requires can { state.old.faulted ≡ false → child.faulted ≡ false → CanJoin branch assigned.now state.old child }
    ensures state { JoinsState branch assigned.now state.old state.new child }
    ensures words { words_released result ≡ released state.old child }
{
    match branch {
        Branch::Par(_) => state.join(child, assigned),
        Branch::Dummies => state.join_dummies(child),
    }
}
