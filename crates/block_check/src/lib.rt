//! The checker: whether a program keeps the rules, and otherwise the first refusal.
//!
//! This layer decides whether a program keeps the rules of ownership, and names the first rule that it
//! breaks. It stands on the tree of programs and on the rules, which are a relation between the visible
//! names before a statement and those after it. Its one theorem is that a program is accepted exactly
//! where the relation holds.
#![tactic(auto)]

mod branch_sets;
mod calls;
mod changes;
mod check_error;
mod check_fail;
mod checked;
mod checker;
mod entry;
mod environment;
mod expressions;
mod fork;
mod functions;
mod kind;
mod mentions;
mod refusal;
mod search;
mod sets;
mod sets_fail;
mod sought;
mod statements;

pub use branch_sets::{BranchSets, Names};
pub use calls::function_of;
pub use check_error::CheckError;
pub use check_fail::CheckFail;
pub use checked::Checked;
pub use checker::check;
pub use par_ownership::CheckKind;
pub use sets_fail::SetsFail;
