use annex_a_keys::{Cell as OneCell, Kasme as OneKasme};
use trace_keys::{Sight, Where};
use trace_order::Clue as OneClue;

/// A cell and its station.
#[derive(Clone, Copy, Drop)]
pub struct Site {
    /// The station.
    pub station: u8,
    /// The cell.
    pub cell: OneCell,
}

/// A COUNT at which a KeNB may be made.
#[derive(Clone, Copy, Drop)]
pub struct Due {
    /// The KASME, by its place.
    pub kasme: u8,
    /// The uplink NAS COUNT.
    pub count: u32,
}

/// What a line of a question says.
#[derive(Clone, Copy, Drop)]
pub enum Entry {
    /// `air`: moves over the air may go unseen.
    Air,
    /// `moves`: the moves that explain are to be told.
    Moves,
    /// `bound`: so many moves may go unseen between two sightings.
    Bound(u32),
    /// `first`: whether a core may step its chain at once, so that the first NCC is 2.
    First(bool),
    /// `kasme`: a KASME.
    Kasme(OneKasme),
    /// `count`: a COUNT at which a KeNB may be made.
    Count(Due),
    /// `cell`: a cell of a station.
    Cell(Site),
    /// `covers`: where a tap is.
    Covers(Where),
    /// `key` and `star`: a key that is known.
    Clue(OneClue),
    /// What a tap has.
    Seen(Sight),
}
