ghost use Rattle.std.specs.Prelude.{◌≡◌};

/// How a run of the program ended.
#[derive(Clone, Copy)]
pub enum Status {
    /// The question was searched.
    Done,
    /// Memory ran out: std refused room.
    Memory,
    /// There are words; the program takes none.
    BadWords,
    /// The input is no question.
    Refused,
    /// Reading the input failed.
    ReadFault,
    /// Writing the output failed.
    WriteFault,
    /// The input has more than 1,048,576 octets.
    TooLong,
    /// The search was given up: more nets are possible than are kept.
    TooMany,
}

impl Status {
    ghost use Rattle.lte_trace.specs.Status.{code_of};

    /// The exit status.
    pub fn code(self) -> u8
        ensures { result ≡ code_of self }
    {
        match self {
            Status::Done => 0,
            Status::Memory => 1,
            Status::BadWords => 2,
            Status::Refused => 3,
            Status::ReadFault => 4,
            Status::WriteFault => 5,
            Status::TooLong => 9,
            Status::TooMany => 12,
        }
    }
}
