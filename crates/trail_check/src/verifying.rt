ghost use Rattle.std.specs.Prelude.{◌≡◌};
ghost use Rattle.block_check.specs.Checked.{program_of};
ghost use Rattle.par_tree.specs.View.{program_tree};
ghost use Rattle.serial_meaning.specs.Settings.{setting_of};
ghost use Rattle.trail_meaning.specs.Shown.{shown_by_trail};
ghost use Rattle.trail_meaning.specs.Ranges.{HasTrailRanges};
ghost use Rattle.trail_check.specs.Checking.{ChecksTrail, fail_of};

use crate::judging::judge;
use crate::verify_fail::VerifyFail;
use block_check::Checked;
use depth_first_list::Quota;
use serial_meaning::{SerialStop, depth_first};
use std::alloc::Global;
use trail_meaning::Trail;

/// Why there is no depth-first run to check a trail against: the program has more actions than the trail allows, or there is not enough memory.
fn fail_of(stop: SerialStop, steps: u32) -> VerifyFail
    ensures { result ≡ fail_of steps stop }
{
    match stop {
        SerialStop::StepsSpent => VerifyFail::LongRun { limit: steps },
        SerialStop::OutOfMemory => VerifyFail::OutOfMemory,
    }
}

/// ChecksTrail a trail against the program of its source, and returns how many actions it did.
///
/// It runs the program depth-first, and follows the events over the actions of this run. Beside that run it takes time in proportion to the
/// number of events, and for each steal to the number of deques.
///
/// # Errors
///
/// - `LongRun` exactly if the depth-first run has more actions than the trail allows.
/// - Otherwise `BadEvent` exactly if some event may not come, or leads beyond a limit of the trail. It is the first such event.
/// - Otherwise `NotEnded` exactly if the root has not ended after the last event.
/// - Otherwise `WrongNumbers` exactly if the numbers of the trail are not those of its events.
/// - `OutOfMemory` if there is not enough memory.
pub fn verify(alloc: Global, program: &Checked, trail: &Trail) -> Result<u32, VerifyFail>
    requires { HasTrailRanges (shown_by_trail trail.now) }
    ensures { ChecksTrail (setting_of (program_tree (program_of program.now)) trail.now.k) (shown_by_trail trail.now) result }
{
    let Some(quota) = Quota::new(trail.k) else {
        unreachable!();
    };
    match depth_first(alloc, program, quota, trail.steps) {
        Ok(serial) => judge(alloc, serial.actions, trail),
        Err(stop) => Err(fail_of(stop, trail.steps)),
    }
}
