use crate::body::Body;
use crate::name::Name;
use crate::param::Params;
use crate::ret::Ret;

/// A function, and the line of its `fn`, from 1.
#[derive(Drop)]
pub struct Func {
    pub name: Name,
    pub params: Params,
    pub body: Body,
    pub ret: Option<Ret>,
    pub line: u32,
}

/// Functions, in the order of the text.
pub type Funcs = Vec<Func>;
