/// What is wrong in a run of items by itself.
#[derive(Clone, Copy)]
pub enum Trouble {
    /// At this item the phone takes, at an air address, another key than the station there made.
    KeysDiffer(u32),
    /// Packets fail behind it, and a Service Request does not mend it.
    Stuck,
    /// The text that this item sends comes, and nobody opens it.
    PacketLost(u32),
}
