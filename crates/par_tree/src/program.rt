use crate::func::Funcs;

/// A program.
#[derive(Drop)]
pub struct Program {
    pub funcs: Funcs,
}
