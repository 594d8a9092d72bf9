ghost use Rattle.std.specs.Prelude.{◌≡◌};

/// How the output for a ladder text ended.
#[derive(Clone, Copy)]
pub enum Ending {
    /// The row of each line was written.
    Done,
    /// Memory ran out, and a prefix of the output was written.
    Memory,
    /// The number of the first bad line was written.
    Refused,
    /// The output failed, and a prefix of it was written.
    WriteFault,
    /// The rows up to a coincidence were written, and the coincidence.
    Coincidence,
}
