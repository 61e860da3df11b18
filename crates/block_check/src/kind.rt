/// What a name stands for.
#[derive(Clone, Copy)]
pub(crate) enum Kind {
    /// An integer.
    Integer,
    /// A block that the function owns.
    Own,
    /// A block that is lent to the function.
    Lent,
}

impl Kind {
    ghost use Rattle.std.specs.Prelude.{◌≡◌};
    ghost use Rattle.par_ownership.specs.Environment.{is_block, is_own};
    ghost use Rattle.block_check.specs.Shown.{kind_shown};

    pub(crate) fn is_block(self) -> bool
        ensures { result ≡ is_block (kind_shown self) }
    {
        match self {
            Kind::Integer => false,
            Kind::Own | Kind::Lent => true,
        }
    }

    pub(crate) fn is_own(self) -> bool
        ensures { result ≡ is_own (kind_shown self) }
    {
        match self {
            Kind::Integer | Kind::Lent => false,
            Kind::Own => true,
        }
    }
}
