ghost use Rattle.std.specs.Prelude.{◌≡◌};

/// How a run of the program ended.
#[derive(Clone, Copy)]
pub enum Status {
    /// All variants that were asked for were told.
    Done,
    /// Memory ran out: std refused room.
    Memory,
    /// The words are no request.
    BadWords,
    /// The input is no scenario.
    Refused,
    /// Reading the input failed.
    ReadFault,
    /// Writing the output failed.
    WriteFault,
    /// The scenario itself ends at a coincidence.
    Coincidence,
    /// The input has more than 16,777,216 octets.
    TooLong,
    /// The scenario has more than 2,000 steps.
    TooManySteps,
}

impl Status {
    ghost use Rattle.lte_variants.specs.Status.{code_of};

    /// The exit status.
    pub fn code(self) -> u8
        ensures { result ≡ code_of self }
    {
        match self {
            Status::Done => 0,
            Status::Memory => 1,
            Status::BadWords => 2,
            Status::Refused => 3,
            Status::ReadFault => 4,
            Status::WriteFault => 5,
            Status::Coincidence => 7,
            Status::TooLong => 9,
            Status::TooManySteps => 11,
        }
    }
}
