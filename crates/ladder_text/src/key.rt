/// What a line of a ladder text says, in numbers, by which the line is found: two lines are the same
/// exactly where their keys are equal.
#[derive(Clone, Copy, PartialEq, Eq, Hash)]
pub(crate) enum LineKey {
    /// A root's 32 octets.
    Root([u8; 32]),
    /// The row of a root, and an uplink NAS COUNT.
    Kenb(u32, u32),
    /// The row of a root, and that of the SYNC-input.
    Nh(u32, u32),
    /// The row of a key, and a cell's PCI and EARFCN-DL.
    Star(u32, u16, u32),
    /// The row of a key, and the distinguisher and identity of an algorithm.
    Alg(u32, u8, u8),
}
