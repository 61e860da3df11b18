use crate::function_numbers::FunctionNumbers;
use crate::slot_names::SlotNames;

/// The functions of the program, and the names of the slots of the function that is lowered.
#[derive(Drop)]
pub(crate) struct Scope<'a, 'b> {
    pub(crate) functions: &'a FunctionNumbers<'b>,
    pub(crate) names: SlotNames,
}
