use block_arena::Block;

/// What a function hands to its caller.
#[derive(Debug, Drop)]
pub enum Answer {
    /// An integer; 0 where the function ends with no `return`.
    Number(i64),
    /// A block.
    Items(Block),
}
