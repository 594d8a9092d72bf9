ghost use Rattle.std.specs.Prelude.{◌≡◌};

/// How a run of the program ended.
#[derive(Clone, Copy)]
pub enum Status {
    /// Each line was answered, and none was bad.
    Done,
    /// Memory ran out.
    Memory,
    /// There are words; the program takes none.
    BadWords,
    /// Each line was answered, and one was bad at least.
    Refused,
    /// Reading the input failed.
    ReadFault,
    /// Writing the output failed.
    WriteFault,
    /// A line has more than 65,536 octets.
    TooLong,
}

impl Status {
    ghost use Rattle.lte_calc.specs.Status.{code_of};

    /// The exit status.
    pub fn code(self) -> u8
        ensures { result ≡ code_of self }
    {
        match self {
            Status::Done => 0,
            Status::Memory => 1,
            Status::BadWords => 2,
            Status::Refused => 3,
            Status::ReadFault => 4,
            Status::WriteFault => 5,
            Status::TooLong => 9,
        }
    }
}
