ghost use Rattle.std.specs.Prelude.{◌≡◌, ◌≤◌, ℕ, List, IfOk, length};
ghost use Rattle.block_check.specs.Checked.{program_of};
ghost use Rattle.par_tree.specs.View.{program_tree};
ghost use Rattle.command_line.specs.Arguments.{InRange};
ghost use Rattle.command_line.specs.declared.command_kind.CommandKind.TheVariants.{Peak as PeakKind};
ghost use Rattle.command_line.specs.declared.setting.Setting.TheVariants.{Quota as QuotaSetting};
ghost use Rattle.depth_first_run.specs.States.{Item};
ghost use Rattle.depth_first_run.specs.Run.{actions_of};
ghost use Rattle.serial_journal.specs.Telling.{Tells};
ghost use Rattle.dfd_plays.specs.Sources.{SourceGives};
ghost use Rattle.dfd_plays.specs.Peak.{finish_status, ItemsMake, PeakMakes};

use crate::answer::Answer;
use crate::finishing::finish_status;
use crate::messages::spent_text;
use crate::refusal::refusal_answer;
use crate::status::Status;
use accepted_source::accept;
use block_check::Checked;
use depth_first_list::Quota;
use run_report::{PeakReport, peak_text};
use serial_meaning::{Serial, SerialStop, depth_first};
use std::alloc::{AllocError, Global};

/// The answer of a run within its limit.
fn run_answer(alloc: Global, run: Serial) -> Result<Answer, AllocError>
    ensures { IfOk result (λ answer. (limit : ℕ) (items : List Item) → Tells items run → length (actions_of items) ≤ limit →
        ItemsMake items limit answer.status answer.text.items) }
{
    let status = finish_status(run.finish);
    let report = PeakReport {
        actions: run.actions.len(),
        finish: run.finish,
        lines: run.output,
        peak: run.peak,
    };
    let text = peak_text(alloc, &report)?;
    Ok(Answer { status, text })
}

/// Runs a program depth-first.
fn peak_program(alloc: Global, k: u32, limit: u32, program: &Checked) -> Result<Answer, AllocError>
    requires { InRange PeakKind QuotaSetting k }
    ensures { IfOk result (λ answer. PeakMakes k limit (program_tree (program_of program.now)) answer.status answer.text.items) }
{
    let Some(quota) = Quota::new(k) else {
        unreachable!();
    };
    match depth_first(alloc, program, quota, limit) {
        Ok(run) => run_answer(alloc, run),
        Err(SerialStop::StepsSpent) => {
            let text = spent_text(alloc, limit)?;
            Ok(Answer {
                status: Status::StepsSpent,
                text,
            })
        }
        Err(SerialStop::OutOfMemory) => Err(AllocError),
    }
}

/// What the depth-first run of the program whose text these bytes are comes to, or why and where they are refused.
pub fn peak(alloc: Global, k: u32, limit: u32, bytes: &[u8]) -> Result<Answer, AllocError>
    requires { InRange PeakKind QuotaSetting k }
    ensures { IfOk result (λ answer. SourceGives (PeakMakes k limit) bytes.now answer.status answer.text.items) }
{
    match accept(alloc, bytes) {
        Ok(program) => peak_program(alloc, k, limit, &program),
        Err(fail) => refusal_answer(alloc, fail),
    }
}
