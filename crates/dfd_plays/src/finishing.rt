ghost use Rattle.std.specs.Prelude.{◌≡◌, IfOk};
ghost use Rattle.run_report.specs.Shown.{shown_by_report};
ghost use Rattle.run_report.specs.Texts.{report_text};
ghost use Rattle.dfd_plays.specs.Peak.{finish_status};

use crate::answer::Answer;
use crate::status::Status;
use dag_order::Finish;
use run_report::{Report, report_text};
use std::alloc::{AllocError, Global};

/// The status of a run that finished so.
pub fn finish_status(finish: Finish) -> Status
    ensures { result ≡ finish_status finish }
{
    match finish {
        Finish::Done => Status::Done,
        Finish::Faulted(_) => Status::UserFault,
    }
}

/// The answer that reports a run that has finished.
pub fn report_answer(alloc: Global, report: &Report) -> Result<Answer, AllocError>
    ensures status { IfOk result (λ answer. answer.status ≡ finish_status report.now.finish) }
    ensures text { IfOk result (λ answer. answer.text.items ≡ report_text (shown_by_report report.now)) }
{
    let text = report_text(alloc, report)?;
    Ok(Answer {
        status: finish_status(report.finish),
        text,
    })
}
