//! How the result of a child comes to its parent.

ghost use Rattle.std.specs.Prelude.{◌≡◌, false};
ghost use Rattle.thread_frames.specs.Children.{is_delivered, IsAwaited};
ghost use Rattle.thread_frames.specs.Views.{children_of, label_of};
ghost use Rattle.thread_frames.specs.declared.next.Next.TheVariants as nexts;
ghost use Rattle.thread_actions.specs.Results.{IsToCome, IsGiven, HasCome, TakesResult};

use containers::Boxed;
use dag_order::ThreadId;
use thread_frames::{Ended, Next, Thread};
use thread_map::ThreadMap;

/// Delivers the result of a child to its parent, which waits for it and stays at its point.
pub fn give(parent: &mut Boxed<Thread>, ended: Ended)
    requires { IsAwaited (label_of parent.old) ended (children_of parent.old) }
    ensures { IsGiven ended parent.old parent.new }
{
    parent.get_mut().deliver(ended);
}

/// Delivers the kept result of a child to the thread that joins it.
pub fn hand_over(results: &mut ThreadMap<Ended>, top: &mut Boxed<Thread>, child: ThreadId)
    requires { IsToCome results.old top.old child }
    ensures { HasCome results.old results.new top.old top.new child }
{
    let Some(ended) = results.take(child) else {
        unreachable!();
    };
    give(top, ended);
}

/// Delivers the kept result of the child that a thread joins, if it was not delivered before. Before other actions it does nothing.
pub fn take_result(results: &mut ThreadMap<Ended>, top: &mut Boxed<Thread>, next: Next)
    requires { (child : ThreadId) → next ≡ nexts.Join child → is_delivered child (children_of top.old) ≡ false
        → IsToCome results.old top.old child }
    ensures { TakesResult next results.old results.new top.old top.new }
{
    if let Next::Join { child } = next {
        if !top.get().delivered(child) {
            hand_over(results, top, child);
        }
    }
}
