use crate::tries::try_next;
use play_rules::RunEnd;
use scheduler_state::Choices;
use thread_frames::Code;
use work_loop::{Tried, Works};
use worker_entry::{Hall, Seat};

/// A worker of a hall.
#[derive(Drop)]
pub struct HallWorker<C> {
    pub seat: Seat,
    /// The words by which it picks its victims.
    pub choices: C,
}

impl<C: Choices> Works<Hall, Code, RunEnd> for HallWorker<C> {
    ghost use Rattle.worker_entry.specs.Seated.{IsIn, IsProgramOf};
    ghost use Rattle.hall_threads.specs.Working.{HasSeen, IsSameWorker, same_worker, same_on};
    ghost use Rattle.hall_threads.specs.declared.worker.HallWorker.{HallWorker as AnyWorker};

    ghost may_try = { λ hall code worker. IsProgramOf hall code × IsIn hall (AnyWorker.seat worker) };

    ghost is_same = { λ before after. IsSameWorker (AnyWorker.seat before) (AnyWorker.seat after) };

    ghost has_ended = { λ worker end. HasSeen (AnyWorker.seat worker) end };

    fn number(&self) -> u32 {
        self.seat.worker()
    }

    fn try_once(&mut self, table: &Hall, code: &Code) -> Tried<RunEnd> {
        try_next(table, code, &mut self.seat, &mut self.choices)
    }

    ghost same_itself = { λ worker. same_worker (AnyWorker.seat worker) };

    ghost same_onward = { λ x y z first second. same_on (AnyWorker.seat x) (AnyWorker.seat y) (AnyWorker.seat z) first second };
}
