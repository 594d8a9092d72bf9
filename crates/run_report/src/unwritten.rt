/// Why a text was not written to its end.
#[derive(Clone, Copy, Debug, Drop)]
pub enum Unwritten {
    /// Std refused memory.
    Memory,
    /// The output failed.
    WriteFault,
}
