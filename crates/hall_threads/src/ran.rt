use play_rules::Stop;
use run_report::Report;

/// What a run by threads came to.
#[derive(Drop)]
pub enum Ran {
    /// The root has ended: this is to be reported.
    Finished(Report),
    /// The run was stopped, and not for want of memory.
    Stopped(Stop),
}
