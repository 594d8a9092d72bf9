use key_terms::{Proof, Row};

/// Why a fleet does not answer with a line.
#[derive(Clone, Copy, Drop, PartialEq, Eq)]
pub enum FleetFault {
    /// Memory ran out.
    Memory,
    /// A coincidence within one phone: the phone, and what shows it. It ends the fleet.
    Chance(u16, Proof),
    /// A key of one phone equals a key of another by chance: both rows have the same octets. It ends the fleet.
    Cross {
        /// The phone that derived it last, and its row.
        phone: u16,
        row: Row,
        /// The phone that has it already, and its row.
        other: u16,
        other_row: Row,
    },
}
