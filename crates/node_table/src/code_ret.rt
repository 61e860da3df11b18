use crate::code_ret_value::CodeRetValue;

/// The `return` at the end of a function, and the line of its first token, from 1.
#[derive(Drop)]
pub struct CodeRet {
    pub line: u32,
    pub value: CodeRetValue,
}
