/// How a call of the program ended; its number is the program's exit code.
#[derive(Clone, Copy, PartialEq, Eq, Debug)]
pub enum Status {
    /// The command did its work.
    Done,
    /// The words are no command.
    Usage,
    /// The source failed.
    ReadFault,
    /// The sink failed, and has taken a front of the text.
    WriteFault,
    /// The bytes of the source are no text.
    Syntax,
    /// The program of the source breaks a rule of ownership.
    Check,
    /// The program ran to its end with a fault.
    UserFault,
    /// One more action than the limit allows would be done.
    StepsSpent,
    /// The words that an action asks for do not fit the arena.
    ArenaFull,
    /// A theft would make one deque more than the limit allows.
    DequesFull,
    /// There was no memory. Nothing was written.
    OutOfMemory,
    /// The bytes of the source are no trail, or a trail that is not accepted.
    TrailRefused,
}

impl Status {
    ghost use Rattle.std.specs.Prelude.{◌≡◌};
    ghost use Rattle.dfd_plays.specs.Status.{code_of};

    /// The exit code of a program that ends so.
    pub fn code(self) -> u8
        ensures { result ≡ code_of self }
    {
        match self {
            Status::Done => 0,
            Status::Usage => 1,
            Status::ReadFault => 2,
            Status::WriteFault => 3,
            Status::Syntax => 4,
            Status::Check => 5,
            Status::UserFault => 6,
            Status::StepsSpent => 7,
            Status::ArenaFull => 8,
            Status::DequesFull => 9,
            Status::OutOfMemory => 10,
            Status::TrailRefused => 11,
        }
    }
}
