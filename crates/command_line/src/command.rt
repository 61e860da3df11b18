use crate::command_kind::CommandKind;

/// A command with its numbers. An option that the arguments do not give, or that the command does not have, has its default.
#[derive(Clone, Copy, PartialEq, Eq, Debug)]
pub struct Command {
    pub kind: CommandKind,
    /// The quota of a period, in words: a multiple of 16 from 16 to 1,048,576; the default is 4,096.
    pub k: u32,
    /// How many workers run: 1 to 64; the default is 4.
    pub p: u32,
    /// The most words in use at once: a multiple of 16 from 16 to 67,108,864; the default is 1,048,576.
    pub arena: u32,
    /// The most actions of a run: 1 to 4,000,000; the default is 4,000,000. For a trail both are 400,000.
    pub steps: u32,
    /// The most deques at once: 1 to 4,096; the default is 4,096.
    pub deques: u32,
    /// What the draws of the workers begin with: 0 to 18,446,744,073,709,551,615; the default is 1.
    pub seed: u64,
    /// How many groups the made source has, 1 to 8,000; 0 for the other commands.
    pub groups: u32,
}
