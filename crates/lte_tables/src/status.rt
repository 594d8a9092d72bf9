ghost use Rattle.std.specs.Prelude.{◌≡◌};

/// How a run of the program ended.
#[derive(Clone, Copy)]
pub enum Status {
    /// All lines were written.
    Done,
    /// Memory ran out.
    Memory,
    /// Writing failed.
    WriteFault,
}

impl Status {
    ghost use Rattle.lte_tables.specs.Status.{code_of};

    /// The exit status.
    pub fn code(self) -> u8
        ensures { result ≡ code_of self }
    {
        match self {
            Status::Done => 0,
            Status::Memory => 1,
            Status::WriteFault => 5,
        }
    }
}
