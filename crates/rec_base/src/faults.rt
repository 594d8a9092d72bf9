// Why a record is refused.

/// Why a reader refuses the octets of a record.
#[derive(Clone, Copy, PartialEq, Eq, Debug)]
pub enum RecFault {
    /// Fewer octets than the layout has, or none.
    Short,
    /// More octets than the layout has.
    Long,
    /// No record has this kind.
    BadKind,
    /// The field at this offset is out of its range.
    BadField(u8),
}
