use crate::check_error::CheckError;
use par_tree::Program;

/// Why a program is not accepted. It comes back as it was.
#[derive(Drop)]
pub enum CheckFail {
    /// It breaks a rule of ownership.
    Refused(Program, CheckError),
    /// There was not enough memory to check it.
    OutOfMemory(Program),
}
