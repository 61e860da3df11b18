use crate::test::Test;
use flat_expressions::{Act, Operand};

/// What is at a place of flat code. It goes on at the next place if it names no other.
#[derive(Clone, Copy)]
pub enum Instruction {
    /// An act that leaves a number in a slot.
    Act(Act),
    /// A write to a block.
    Write {
        block: u16,
        index: Operand,
        from: Operand,
    },
    /// The test of an `if`, and the place of the other arm, at which it goes on where the test fails.
    Unless {
        test: Test,
        other: u32,
    },
    /// The test of a loop. Where it passes, a turn is taken and the body comes, else what is after the loop.
    Round {
        test: Test,
        body: u32,
        behind: u32,
    },
    /// It goes on at this place.
    Jump(u32),
    /// The end of flat code: a statement that the thread does by itself, or the end of a list that the thread does not leave by itself.
    Leave,
}
