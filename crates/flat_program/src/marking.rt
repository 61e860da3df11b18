//! Whether the frames of a thread are those of the mark of a place.

ghost use Rattle.std.specs.Prelude.{◌≡◌, ◌+◌, ◌≤◌, ◌↔◌, List, [], ◌∷◌, ◌++◌, length, take, reverse, None, IsTrue, IfSome};
ghost use Rattle.std.specs.Prelude.{vec_len, vec_capacity};
ghost use Rattle.thread_stack.specs.declared.frame.Frame as frames;
ghost use Rattle.flat_code.specs.Passed.Flat.{frames_at};
ghost use Rattle.flat_code.specs.Shown.{flat_shown};
ghost use Rattle.flat_program.specs.Programs.{deepest_mark};
ghost use Rattle.flat_program.specs.Marking.{IsMarkOn};

use crate::flat_list::FlatList;
use depth_first_list::Tree;
use flat_code::Place;
use thread_stack::{Branch, Frame, ListOf};

impl FlatList {
    /// How many frames of a stack are left below those of the mark of a place, where `next` is the frame above the stack. None if the frames
    /// above are not those of the mark, or if the mark has none.
    #[inline(always)]
    pub fn left_below(&self, place: usize, next: Frame, stack: &[Frame]) -> Option<usize>
        ensures some { IfSome result (λ n. (n ≤ length stack.now) × IsMarkOn self.now place next stack.now (take n stack.now)) }
        ensures none { result ≡ None → (left : List frames.Frame) → length left ≤ length stack.now
            → IsMarkOn self.now place next stack.now left → ⊥ }
    {
        left_of(self.mark(place), next, stack)
    }

    /// The frames of the mark of a place, the next one last.
    #[inline(always)]
    pub fn mark(&self, place: usize) -> &[Frame]
        ensures { reverse result.now ≡ frames_at (flat_shown self.now.places.items) place }
    {
        match self.places.get(place) {
            Some(here) => &here.mark,
            None => &[],
        }
    }

    /// Puts the frames of the mark of a place on a stack, which has room for them.
    #[inline(always)]
    pub fn push_mark(&self, place: usize, stack: &mut Vec<Frame>)
        requires { vec_len stack.old + length (frames_at (flat_shown self.now.places.items) place) ≤ vec_capacity stack.old }
        ensures { reverse stack.new.items ≡ frames_at (flat_shown self.now.places.items) place ++ reverse stack.old.items }
    {
        push_all(self.mark(place), stack);
    }
}

/// Puts frames on a stack, which has room for them.
fn push_all(frames: &[Frame], stack: &mut Vec<Frame>)
    requires { vec_len stack.old + length frames.now ≤ vec_capacity stack.old }
    ensures { stack.new.items ≡ stack.old.items ++ frames.now }
{
    for frame in frames {
        stack.push_reserved(*frame);
    }
}

/// How many frames the mark of a place has at most.
pub(crate) fn deepest_of(places: &[Place]) -> usize
    ensures { result ≡ deepest_mark places.now }
{
    let mut deepest = 0usize;
    for place in places {
        deepest = deepest.max(place.mark.len());
    }
    deepest
}

/// How many frames of a stack, with one more above it, are left below those of a mark. Most marks have one frame.
#[inline(always)]
fn left_of(mark: &[Frame], next: Frame, stack: &[Frame]) -> Option<usize>
    ensures some { IfSome result (λ n. (n ≤ length stack.now) × (stack.now ++ next ∷ [] ≡ take n stack.now ++ mark.now)) }
    ensures none { result ≡ None → (left : List frames.Frame) → length left ≤ length stack.now
        → stack.now ++ next ∷ [] ≡ left ++ mark.now → ⊥ }
{
    let Some((last, others)) = mark.split_last() else {
        return None;
    };
    if !is_same_frame(next, *last) {
        return None;
    }
    if others.is_empty() {
        return Some(stack.len());
    }
    if others.len() > stack.len() {
        return None;
    }
    let left = stack.len() - others.len();
    if !are_same_frames(&stack[left..], others) {
        return None;
    }
    Some(left)
}

/// Whether two lists have the same frames.
pub(crate) fn are_same_frames(one: &[Frame], other: &[Frame]) -> bool
    ensures { IsTrue result ↔ (one.now ≡ other.now) }
{
    let mut left = one;
    let mut right = other;
    'frames: while let Some((x, xs)) = left.split_first() {
        let Some((y, ys)) = right.split_first() else {
            return false;
        };
        if !is_same_frame(*x, *y) {
            return false;
        }
        left = xs;
        right = ys;
    }
    right.is_empty()
}

/// Whether two lists of statements are the same.
fn is_same_list(one: ListOf, other: ListOf) -> bool
    ensures { IsTrue result ↔ (one ≡ other) }
{
    match one {
        ListOf::Body(x) => match other {
            ListOf::Body(y) => x == y,
            _ => false,
        },
        ListOf::Then(x) => match other {
            ListOf::Then(y) => x == y,
            _ => false,
        },
        ListOf::Other(x) => match other {
            ListOf::Other(y) => x == y,
            _ => false,
        },
        ListOf::Round(x) => match other {
            ListOf::Round(y) => x == y,
            _ => false,
        },
        ListOf::Left(x) => match other {
            ListOf::Left(y) => x == y,
            _ => false,
        },
        ListOf::Right(x) => match other {
            ListOf::Right(y) => x == y,
            _ => false,
        },
        ListOf::Inside(x) => match other {
            ListOf::Inside(y) => x == y,
            _ => false,
        },
    }
}

/// Whether two branches are the same.
fn is_same_branch(one: Branch, other: Branch) -> bool
    ensures { IsTrue result ↔ (one ≡ other) }
{
    match one {
        Branch::Par(x) => match other {
            Branch::Par(y) => x == y,
            Branch::Dummies => false,
        },
        Branch::Dummies => match other {
            Branch::Par(_) => false,
            Branch::Dummies => true,
        },
    }
}

/// Whether two trees of dummies are the same.
fn is_same_tree(one: Tree, other: Tree) -> bool
    ensures { IsTrue result ↔ (one ≡ other) }
{
    one.leaves() == other.leaves()
}

/// Whether two numbers, each of which may be missing, are the same.
fn is_same_number(one: Option<u32>, other: Option<u32>) -> bool
    ensures { IsTrue result ↔ (one ≡ other) }
{
    match one {
        Some(x) => match other {
            Some(y) => x == y,
            None => false,
        },
        None => match other {
            Some(_) => false,
            None => true,
        },
    }
}

/// Whether two frames are the same.
fn is_same_frame(one: Frame, other: Frame) -> bool
    ensures { IsTrue result ↔ (one ≡ other) }
{
    match one {
        Frame::Statements { list, next } => match other {
            Frame::Statements { list: y, next: n } => next == n && is_same_list(list, y),
            _ => false,
        },
        Frame::Again(x) => match other {
            Frame::Again(y) => x == y,
            _ => false,
        },
        Frame::Tree(x) => match other {
            Frame::Tree(y) => is_same_tree(x, y),
            _ => false,
        },
        Frame::Answers { node, caller } => match other {
            Frame::Answers { node: y, caller: n } => node == y && is_same_number(caller, n),
            _ => false,
        },
        Frame::Rejoins(x) => match other {
            Frame::Rejoins(y) => x == y,
            _ => false,
        },
        Frame::AnswersMain => match other {
            Frame::AnswersMain => true,
            _ => false,
        },
        Frame::Allocates { slot, len } => match other {
            Frame::Allocates { slot: y, len: n } => slot == y && len == n,
            _ => false,
        },
        Frame::Joins(x) => match other {
            Frame::Joins(y) => is_same_branch(x, y),
            _ => false,
        },
    }
}
