//! Cores, which may be handed to another thread of the system, lent to one, and taken apart at their end.

use accepted_source::accept;
use block_arena::Pool;
use dag_order::Finish;
use depth_first_list::Quota;
use dfd_core::{Core, CoreEnd, ListChoices, RunEnd, play};
use frame_code::lower;
use std::alloc::{AllocError, Global};
use std::process::Abort;

fn sends<T: Send>(_value: &T) {}

fn shares<T: Sync>(_value: &T) {}

/// A core may be handed and lent to another thread.
fn may_cross_threads(core: &Core) {
    sends(core);
    shares(core);
}

/// The core of a run of a small program by one worker, before its first step.
fn core_of(alloc: Global) -> Result<Core, AllocError> {
    let (Some(k), Ok(pool)) = (Quota::new(16), Pool::new(alloc, 16)) else {
        return Err(AllocError);
    };
    let Ok(program) = accept(alloc, b"fn main() { print 1; }") else {
        return Err(AllocError);
    };
    let code = lower(alloc, program)?;
    Core::new(alloc, code, k, 1, pool, 9, 1)
}

/// Plays to the end. It hands no clause on, since each goal of its caller would carry it.
fn play_to_end(alloc: Global, core: &mut Core) {
    let mut choices = ListChoices::new(Vec::new(alloc));
    let _end = play(core, &mut choices);
}

/// What is left of a run that has ended.
fn rest_of(rt: &impl Abort, core: Core) -> CoreEnd {
    let Some(_end) = core.end() else {
        panic!(rt; "it goes on");
    };
    assert!(rt; core.are_all_idle(), "somebody owns a deque");
    core.into_end()
}

#[test]
fn cores_cross_threads_and_are_taken_apart(rt: HostRuntime) {
    let mut core = core_of(rt.alloc()).expect(&rt, "memory");
    may_cross_threads(&core);
    play_to_end(rt.alloc(), &mut core);
    let rest = rest_of(&rt, core);
    assert!(rt; rest.end == RunEnd::Finished(Finish::Done) && rest.root.is_some());
    assert!(rt; [rest.books.periods(), rest.books.ahead()] == [1, 0] && rest.moves.high() == 0);
}
