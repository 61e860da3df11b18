ghost use Rattle.std.specs.Prelude.{◌≡◌, ◌<◌, ◌+◌, ◌*◌, List as AnyList, None, Some};
ghost use Rattle.depth_first_run.specs.States.{Setting};
ghost use Rattle.deque_machine.specs.Moments.{Moment};
ghost use Rattle.deque_machine.specs.Play.{IsFirst};
ghost use Rattle.deque_machine.specs.Runs.{Pair};
ghost use Rattle.ready_machine.specs.ReadyPlay.{CanGo};
ghost use Rattle.async_core.specs.Cores.{IsAt, SameSetting, end_of, terms_at, workers_of};
ghost use Rattle.async_core.specs.Plays.{TakesTurn, PlaysTo};

use crate::run::AsyncCore;
use play_rules::{RunEnd, first_mover, some_ready};
use scheduler_state::Choices;

/// The worker that moves next, picked by a word: the first that can.
fn mover(core: &AsyncCore, word: u64) -> u32
    requires { end_of core.now ≡ None }
    ensures below { result < workers_of core.now }
    ensures first { (c : Setting) (run : AnyList Pair) (m : Moment) → IsAt c core.now run m
        → IsFirst (workers_of core.now) word (CanGo m) result }
{
    let workers = core.workers();
    let is_ready = some_ready(&core.scheduler.list, workers);
    match first_mover(&core.scheduler.table, is_ready, workers, word) {
        Some(worker) => worker,
        None => unreachable!(),
    }
}

/// Lets the worker move whose turn it is, in a run that has not ended.
fn turn<C: Choices>(core: &mut AsyncCore, choices: &mut C)
    requires { end_of core.old ≡ None }
    ensures turn { TakesTurn (C.coming choices.old) (C.coming choices.new) core.old core.new }
    ensures setting { SameSetting core.old core.new }
{
    let worker = mover(core, choices.word());
    core.step(worker);
}

/// More turns than a play can have, from whatever moment on.
fn most_turns(core: &AsyncCore) -> u64
    ensures { result ≡ 5 * (terms_at core.now).limits.actions + 2 * workers_of core.now + 1 }
{
    5 * u64::from(core.limit()) + 2 * u64::from(core.workers()) + 1
}

/// Lets the workers run to the end, in the order that the words pick, one word a turn. A run that has ended stays as it is, and draws no word.
/// Where memory is wanting, the core is at a moment of the front of the play.
pub fn play_async<C: Choices>(core: &mut AsyncCore, choices: &mut C) -> RunEnd
    ensures end { end_of core.new ≡ Some result }
    ensures kept { (end : RunEnd) → end_of core.old ≡ Some end → (result ≡ end) × (core.new ≡ core.old) × (choices.new ≡ choices.old) }
    ensures played { end_of core.old ≡ None → (c : Setting) (run : AnyList Pair) (m : Moment) → IsAt c core.old run m
        → PlaysTo c (terms_at core.old) (C.coming choices.old) (C.coming choices.new) core.new run m result }
    ensures setting { SameSetting core.old core.new }
{
    if let Some(end) = core.end() {
        return end;
    }
    for _ in 0..most_turns(core) {
        turn(core, choices);
        if let Some(end) = core.end() {
            return end;
        }
    }
    unreachable!()
}
