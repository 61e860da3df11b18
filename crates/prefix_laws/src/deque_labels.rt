//! The labels of the threads in the deques.

ghost use Rattle.std.specs.Prelude.{◌≡◌, ◌++◌, List as AnyList, IfOk, map};
ghost use Rattle.depth_first_run.specs.States.{Setting};
ghost use Rattle.deque_machine.specs.Moments.{Moment, threads_in, Rises};
ghost use Rattle.deque_machine.specs.Runs.{Pair};
ghost use Rattle.deque_machine.specs.Terms.{Terms};
ghost use Rattle.deque_machine.specs.Lists.{Each};
ghost use Rattle.scheduler_state.specs.Held.{held};
ghost use Rattle.scheduler_state.specs.Moments.{HasRun};
ghost use Rattle.thread_frames.specs.Views.{label_of as label_shown};
ghost use Rattle.prefix_laws.specs.Listing.{births_behind};
ghost use Rattle.prefix_laws.specs.DequeLabels.{AreLabelled, HasSomeRun, labels_in};

use crate::labels::label_of;
use crate::numbered::in_order;
use containers::Boxed;
use dag_order::{Births, Label};
use deque_list::{Lane, List};
use scheduler_state::Scheduler;
use std::alloc::{AllocError, Global};
use thread_frames::Thread;

/// Puts the labels of the threads of a deque behind others, from top to bottom.
fn add_labels(
    alloc: Global,
    births: &[&Births],
    lane: &Lane<Boxed<Thread>>,
    labels: &mut Vec<Label>,
) -> Result<(), AllocError>
    requires { AreLabelled (births_behind births.now) lane.now.items }
    ensures { IfOk result (λ _. labels.new.items ≡ labels.old.items ++ map label_shown lane.now.items) }
{
    'threads: for place in 0..lane.len() {
        let Some(thread) = lane.item(place) else {
            unreachable!();
        };
        labels.push(label_of(alloc, births, thread.get().id())?)?;
    }
    Ok(())
}

/// The labels of the threads of a list of deques.
fn labels_in(
    alloc: Global,
    births: &[&Births],
    list: &List<Boxed<Thread>>,
) -> Result<Vec<Label>, AllocError>
    requires { Each (λ deque. AreLabelled (births_behind births.now) deque.items) list.now.deques }
    ensures { IfOk result (λ labels. labels.items ≡ labels_in list.now.deques) }
{
    let mut labels = Vec::new(alloc);
    'deques: for rank in 0..list.len() {
        let Some(id) = list.at(rank) else {
            unreachable!();
        };
        add_labels(alloc, births, list.lane(id), &mut labels)?;
    }
    Ok(labels)
}

/// The labels of the threads in the deques, from left to right and in each from top to bottom.
pub(crate) fn labels_of(alloc: Global, s: &Scheduler) -> Result<Vec<Label>, AllocError>
    requires { HasSomeRun s.now }
    ensures moment { (c : Setting) (terms : Terms) (run : AnyList Pair) (m : Moment) → HasRun c terms (held s.now) run m
        → IfOk result (λ labels. labels.items ≡ threads_in m.deques) }
    ensures rise { IfOk result (λ labels. Rises labels.items) }
{
    let periods = in_order(alloc, &s.table)?;
    labels_in(alloc, &periods.births, &s.list)
}
