ghost use Rattle.std.specs.Prelude.{◌≡◌};
ghost use Rattle.flat_expressions.specs.Shown.{target_of};

use crate::operand::Operand;
use par_tree::{ChainOp, CmpOp};

/// An act of straight code, which leaves a number in the slot `to`.
#[derive(Clone, Copy)]
pub enum Act {
    /// The number of an operand.
    Move {
        to: u16,
        from: Operand,
    },
    /// The length of a block.
    Length {
        to: u16,
        block: u16,
    },
    /// The number of a block at an index.
    Element {
        to: u16,
        block: u16,
        index: Operand,
    },
    /// A number with the other sign.
    Negate {
        to: u16,
        from: Operand,
    },
    /// An operator on two operands.
    Operate {
        op: ChainOp,
        to: u16,
        left: Operand,
        right: Operand,
    },
    /// A comparison of two operands, which is 1 or 0.
    Compare {
        op: CmpOp,
        to: u16,
        left: Operand,
        right: Operand,
    },
}

impl Act {
    /// The slot in which the act leaves its number.
    pub(crate) fn target(&self) -> u16
        ensures { result ≡ target_of self.now }
    {
        match self {
            Act::Move { to, .. } => *to,
            Act::Length { to, .. } => *to,
            Act::Element { to, .. } => *to,
            Act::Negate { to, .. } => *to,
            Act::Operate { to, .. } => *to,
            Act::Compare { to, .. } => *to,
        }
    }
}
