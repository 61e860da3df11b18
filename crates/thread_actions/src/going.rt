//! What comes before the next action of a top thread: a place for the child that it may fork, and the way to the action.

ghost use Rattle.std.specs.Prelude.{◌≡◌, ◌≤◌, ◌<◌, ℕ, Some, OnOk, IfOk, IsSome, is_some};
ghost use Rattle.language_limits.specs.declared.TheConstants.{GREATEST_COUNT};
ghost use Rattle.depth_first_list.specs.QuotaWords.{quota_words};
ghost use Rattle.thread_points.specs.Passed.States.{Setting};
ghost use Rattle.node_table.specs.Codes.{code_shown};
ghost use Rattle.thread_state.specs.Settings.{IsSettingOf};
ghost use Rattle.thread_frames.specs.Actions.{IsOfTheList, IsStill, JoinsNewest};
ghost use Rattle.thread_frames.specs.Points.{IsAtPoint};
ghost use Rattle.thread_frames.specs.Views.{children_of, done_of, next_of, thread_words};

use containers::Boxed;
use depth_first_list::Quota;
use std::alloc::{AllocError, Global};
use thread_frames::{Code, Next, Place, Thread};

/// Makes a place for the thread that is forked next, if there is none: that of a thread that has ended, or a new one.
///
/// # Errors
///
/// There is not enough memory.
pub fn reserve_place(
    place: &mut Option<Place>,
    used: &mut Option<Boxed<Thread>>,
    alloc: Global,
) -> Result<(), AllocError>
    ensures { OnOk result (IsSome place.new) }
{
    if place.is_some() {
        return Ok(());
    }
    let made = match used.take() {
        Some(thread) => Place::of(thread)?,
        None => Place::new(alloc)?,
    };
    *place = Some(made);
    Ok(())
}

/// Runs a thread up to its next action, which it returns. No pool is touched.
///
/// # Errors
///
/// There is not enough memory. The thread may be of no further use.
pub fn advance(
    top: &mut Boxed<Thread>,
    alloc: Global,
    code: &Code,
    k: Quota,
) -> Result<Next, AllocError>
    requires point { IsAtPoint (code_shown code.now) (quota_words k) top.old }
    requires few { done_of top.old < GREATEST_COUNT }
    ensures point { OnOk result (IsAtPoint (code_shown code.now) (quota_words k) top.new) }
    ensures next { IfOk result (λ next. next_of top.new ≡ Some next) }
    ensures newest { IfOk result (λ next. JoinsNewest next (children_of top.new)) }
    ensures still { IsStill top.old top.new }
    ensures few { OnOk result (done_of top.new < GREATEST_COUNT) }
    ensures list { (c : Setting) → IsSettingOf (code_shown code.now) (quota_words k) c
        → IfOk result (λ next. ∥ IsOfTheList c top.new next ∥₁) }
{
    top.get_mut().advance(alloc, code, k)
}

/// Lets a thread go on towards its next action for some `most` turns, and says whether it has come there. No pool is touched.
///
/// # Errors
///
/// There is not enough memory. The thread may be of no further use.
pub fn step_on(
    top: &mut Boxed<Thread>,
    alloc: Global,
    code: &Code,
    k: Quota,
    most: u32,
) -> Result<bool, AllocError>
    requires point { IsAtPoint (code_shown code.now) (quota_words k) top.old }
    requires few { done_of top.old < GREATEST_COUNT }
    ensures point { OnOk result (IsAtPoint (code_shown code.now) (quota_words k) top.new) }
    ensures came { IfOk result (λ came. came ≡ is_some (next_of top.new)) }
    ensures still { IsStill top.old top.new }
{
    top.get_mut().step_on(alloc, code, k, most)
}
