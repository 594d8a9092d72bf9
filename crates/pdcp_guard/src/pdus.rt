use rec_base::Octets;

/// A PDU as sent, and the COUNT that it took.
#[derive(Drop)]
pub struct PdcpSent {
    /// The octets.
    pub pdu: Octets,
    /// The COUNT, of 32 bits.
    pub count: u32,
}

/// What a PDU held.
#[derive(Drop)]
pub struct PdcpOpened {
    /// Its COUNT, of 32 bits.
    pub count: u32,
    /// The text, deciphered.
    pub text: Octets,
}

/// Why a PDU is not made or does not open.
#[derive(Clone, Copy, Debug, PartialEq, Eq)]
pub enum PdcpFault {
    /// The next COUNT, or the one of the PDU, is 2^32 or more.
    CountSpent,
    /// There are fewer than five octets on an SRB, or fewer than two on a DRB.
    Short,
    /// A reserved bit of the first octet, which this holds, is set, or D/C is 0 on a DRB.
    BadHeader(u8),
    /// On an SRB, the MAC differs.
    MacFails {
        /// The COUNT at which it was computed.
        count: u32,
        /// The MAC computed.
        wanted: [u8; 4],
        /// The MAC received, deciphered where the bearer is ciphered.
        got: [u8; 4],
    },
}
