//! What stops an action.

ghost use Rattle.std.specs.Prelude.{◌≤◌, ◌<◌, ◌+◌, OnOk, IfErr};
ghost use Rattle.worker_step.specs.Refusals.{Refuses};

use play_rules::Stop;
use scheduler_state::Scheduler;

/// Whether an action may come which takes so many words.
///
/// # Errors
///
/// What stops it: its words do not fit beside those that are out; or they do, and no further action is allowed.
pub(crate) fn test_action(scheduler: &Scheduler, limit: u32, asked: u64) -> Result<(), Stop>
    requires { asked < 4294967296 }
    ensures fits { OnOk result (scheduler.now.pool.live + asked ≤ scheduler.now.pool.capacity) }
    ensures few { OnOk result (scheduler.now.done < limit) }
    ensures refused { IfErr result (Refuses scheduler.now limit asked) }
{
    let live = scheduler.pool.live();
    if scheduler.pool.capacity() < live + asked {
        return Err(Stop::ArenaFull { live, asked });
    }
    if limit <= scheduler.done {
        return Err(Stop::StepsSpent { limit });
    }
    Ok(())
}
