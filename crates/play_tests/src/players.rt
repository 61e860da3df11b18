//! The two cores that play, as one: that of deques and that of a ready list.

use accepted_source::accept;
use async_core::{Arena, AsyncCore, play_async};
use block_arena::Pool;
use dag_order::Lines;
use depth_first_list::Quota;
use frame_code::lower;
use scheduler_state::{OutputFail, Scheduler};
use std::alloc::{AllocError, Global};
use std::process::Abort;
use trail_record::{Core, ListChoices, RunEnd, Stepped, play};

/// Which core plays.
#[derive(Clone, Copy, PartialEq, Eq, Debug)]
pub(crate) enum Lists {
    Deques,
    Ready,
}

/// A core of either kind.
#[derive(Drop)]
pub(crate) enum Player {
    Deques(Core),
    Ready(AsyncCore),
}

/// The numbers of a run: its quota, the workers, the words of the arena, the most actions and the most deques.
#[derive(Clone, Copy)]
pub(crate) struct Numbers {
    pub k: u32,
    pub workers: u32,
    pub arena: u32,
    pub limit: u32,
    pub most: u32,
}

/// The core of a run of a text. Numbers that are out of their ranges, and a text that is no accepted program, count as want of memory.
fn begun(alloc: Global, text: &str, lists: Lists, of: Numbers) -> Result<Player, AllocError> {
    let (Some(k), Ok(pool)) = (Quota::new(of.k), Pool::new(alloc, of.arena)) else {
        return Err(AllocError);
    };
    let Ok(program) = accept(alloc, text.as_bytes()) else {
        return Err(AllocError);
    };
    let code = lower(alloc, program)?;
    if of.workers < 1 || 64 < of.workers || of.limit < 1 || 4_000_000 < of.limit {
        return Err(AllocError);
    }
    if of.most < 1 || 4_096 < of.most {
        return Err(AllocError);
    }
    match lists {
        Lists::Deques => {
            let core = Core::new(alloc, code, k, of.workers, pool, of.limit, of.most)?;
            Ok(Player::Deques(core))
        }
        Lists::Ready => {
            let Some(arena) = Arena::of(pool) else {
                return Err(AllocError);
            };
            let core = AsyncCore::new(alloc, code, k, of.workers, arena, of.limit)?;
            Ok(Player::Ready(core))
        }
    }
}

/// The same, which hands no clause on, since each goal of its callers would carry it.
pub(crate) fn player_of(
    rt: &impl Abort,
    alloc: Global,
    text: &str,
    lists: Lists,
    of: Numbers,
) -> Player {
    begun(alloc, text, lists, of).expect(rt, "a core")
}

/// What a core holds between two events.
pub(crate) fn scheduler_of(player: &Player) -> &Scheduler {
    match player {
        Player::Deques(core) => core.scheduler(),
        Player::Ready(core) => core.scheduler(),
    }
}

/// How a run ended, its periods, those of them that are marked ahead, and the most words that were in use at once.
#[derive(Clone, Copy)]
pub(crate) struct Report {
    pub end: Option<RunEnd>,
    pub periods: u32,
    pub ahead: u32,
    pub high: u64,
}

/// The report of a run.
pub(crate) fn report_of(player: &Player) -> Report {
    match player {
        Player::Deques(core) => Report {
            end: core.end(),
            periods: core.periods(),
            ahead: core.ahead(),
            high: core.high(),
        },
        Player::Ready(core) => Report {
            end: core.end(),
            periods: core.periods(),
            ahead: core.ahead(),
            high: core.high(),
        },
    }
}

/// Whether a run says that it has no output, since it has not finished.
pub(crate) fn is_unfinished(player: &Player) -> bool {
    let output = match player {
        Player::Deques(core) => core.output(),
        Player::Ready(core) => core.output(),
    };
    matches!(output, Err(OutputFail::NotFinished))
}

/// What a run printed that has finished.
pub(crate) fn output_of(rt: &impl Abort, player: &Player) -> Lines {
    let output = match player {
        Player::Deques(core) => core.output(),
        Player::Ready(core) => core.output(),
    };
    output.ok().expect(rt, "its lines")
}

/// Lets a worker do one event. An idle one steals from where the word picks, or takes the leftmost ready thread. It hands no clause on, as
/// `player_of`.
pub(crate) fn step_of(rt: &impl Abort, player: &mut Player, worker: u32, word: u64) -> Stepped {
    match player {
        Player::Deques(core) => {
            assert!(rt; worker < core.workers(), "no such worker");
            core.step(worker, word)
        }
        Player::Ready(core) => {
            assert!(rt; worker < core.workers(), "no such worker");
            core.step(worker)
        }
    }
}

/// Plays a run to its end. It hands no clause on, as `player_of`.
pub(crate) fn play_to_end(player: &mut Player, choices: &mut ListChoices) -> RunEnd {
    match player {
        Player::Deques(core) => play(core, choices),
        Player::Ready(core) => play_async(core, choices),
    }
}
