/// The record that an item sent, where it was not delivered at once.
#[derive(Clone, Copy)]
pub struct Sent {
    /// The name of the item.
    pub name: u32,
    /// The number of the record.
    pub number: u32,
}
