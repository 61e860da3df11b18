use std::alloc::AllocError;

/// Why no deque was inserted.
#[derive(Clone, Copy, PartialEq, Eq, Debug)]
pub enum InsertRefused {
    /// There are as many deques as are allowed.
    Full { deques: u32 },
    OutOfMemory,
}

impl From<AllocError> for InsertRefused {
    ghost use Rattle.std.specs.Prelude.{◌≡◌};
    ghost use Rattle.deque_list.specs.declared.insert_refused.InsertRefused.TheVariants.{OutOfMemory};

    ghost from_gives = { λ _ refused. refused ≡ OutOfMemory };

    fn from(_error: AllocError) -> InsertRefused {
        InsertRefused::OutOfMemory
    }
}
