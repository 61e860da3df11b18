use crate::code_ret::CodeRet;
use crate::node::{NodeList, Slots};

/// A function: how many slots its frame has, the slots of its parameters in order, its statements, and
/// its `return`.
#[derive(Drop)]
pub struct FuncCode {
    pub slots: u16,
    pub params: Slots,
    pub body: NodeList,
    pub ret: Option<CodeRet>,
}
