/// Why a program is refused.
#[derive(Clone, Copy, PartialEq, Eq, Debug)]
pub enum CheckKind {
    /// A name is read that is not visible, or a function is called that is not there.
    UnknownName,
    /// A name is declared that is visible already, or a second function has the name of another.
    Redefined,
    /// An integer stands where a block is wanted, or the other way round.
    WrongKind,
    /// A call has more or fewer arguments than the function has parameters.
    WrongCount,
    /// A block is named in both branches of a `par`, or passed twice in one call.
    SharedBlock,
    /// An integer is assigned in one branch of a `par` and named in the other.
    SharedInt,
    /// A block is used after it was freed, given away or split.
    Gone,
    /// An owned block is still held where the list that declared it ends.
    NotFreed,
    /// A block is held after one arm and not after the other, or is used up by a loop's body.
    ArmsDiffer,
    /// A lent block is freed or given away.
    FreesLent,
    /// There is no `main`, or it has parameters, or it hands a block back.
    NoMain,
}
