//! The items of a scenario and of its variants.
#![tactic(auto)]

/// What an item does.
#[derive(Clone, Copy)]
pub enum Deed {
    /// The act of this place in a list of acts.
    Act(u32),
    /// The delivery of what the item of this name sent. It falls away where that one sent nothing.
    Delivery(u32),
}

/// An item of a scenario or of a variant of it.
#[derive(Clone, Copy)]
pub struct Item {
    /// Its name.
    pub name: u32,
    /// What it does.
    pub deed: Deed,
    /// So many records that come of it, each of the one before, are delivered at once.
    pub at_once: u8,
}
