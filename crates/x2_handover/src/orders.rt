use alg_choice::Algs;
use annex_a_keys::Cell;

/// What a handover command tells the phone (TS 36.331 5.3.5.4, TS 33.401 7.2.8.4.4).
#[derive(Clone, Copy, Debug, PartialEq, Eq)]
pub struct Order {
    /// The target cell.
    pub cell: Cell,
    /// The NCC of the target's KeNB*, 0 to 7.
    pub ncc: u8,
    /// The algorithms that the target chose.
    pub algs: Algs,
    /// The target station, 0 to 7.
    pub station: u8,
    /// The air address that the target drew for the phone, at least 1.
    pub air: u32,
}
