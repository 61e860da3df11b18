use crate::ret_value::RetValue;

/// The `return` at the end of a function, and the line of its first token, from 1.
#[derive(Drop)]
pub struct Ret {
    pub line: u32,
    pub value: RetValue,
}
