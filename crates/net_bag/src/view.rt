use lte_events::Address;
use rec_base::{Octets, Use};

/// A record of the bag.
#[derive(Drop)]
pub struct BagView {
    /// Where it was sent.
    pub to: Address,
    /// Its octets.
    pub octets: Octets,
    /// The use of the integrity key by which it is protected, if it is.
    pub tuple: Option<Use>,
}
