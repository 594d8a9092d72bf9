ghost use Rattle.std.specs.Prelude.{◌≡◌, ◌≤◌, ◌<◌, ◌↔◌, [], ◌∷◌, ◌++◌, length, false, find, IsTrue, IsErrOf, IfSome, IsSome, OnOk, OnErr, slice_get};
ghost use Rattle.std.specs.Option.{option_map};
ghost use Rattle.std.specs.List.{list_any};
ghost use Rattle.lte_events.specs.Site.{is_site, station_of, NoneTwice};

use annex_a_keys::Cell;
use arrayvec::ArrayVec;
use std::marker::Model;

// A cell, and the station that has it.
#[derive(Clone, Copy, Default, PartialEq, Eq)]
struct Entry {
    station: u8,
    cell: Cell,
}

impl Model for Entry {
    ghost use Rattle.lte_events.specs.Site.{Site};

    ghost Value = { Site };

    ghost view = { λ e. record { station = e.station; cell = e.cell } };

    ghost inverse = { λ s. record { station = s.station; cell = s.cell } };
}

/// The cells of all stations, at most 32, in the order in which they were added, none of them twice.
/// A contract sees them as the list of the cells with their stations.
#[derive(Clone, PartialEq, Eq, Drop)]
pub struct Cells {
    entries: ArrayVec<Entry, 32>,
}

impl Model for Cells {
    ghost use Rattle.std.specs.Prelude.{List};
    ghost use Rattle.lte_events.specs.Site.{Site, IsCellTable};

    ghost Value = { List Site };

    ghost view = { λ c. c.entries.items };

    ghost invariant = { λ c. IsCellTable c.entries.items };

    ghost inverse = { λ sites. record { entries = record { items = sites } } };
}

/// Why a cell is not added.
#[derive(Clone, Copy, Debug, PartialEq, Eq)]
pub enum CellsFault {
    /// The cell stands already.
    SameCell,
    /// There are 32 cells.
    Full,
}

impl Cells {
    /// No cell.
    pub fn new() -> Cells
        ensures { result ≡ [] }
    {
        Cells {
            entries: ArrayVec::new(),
        }
    }

    /// Adds a cell of a station, 0 to 7. Otherwise nothing changes: `SameCell` where the cell stands
    /// already, `Full` where it does not and there are 32 cells.
    pub fn add(&mut self, station: u8, cell: Cell) -> Result<(), CellsFault>
        requires { station ≤ 7 }
        ensures ok { OnOk result (self.new ≡ self.old ++ record { station = station; cell = cell } ∷ []) }
        ensures same_cell { IsErrOf result CellsFault.SameCell ↔ IsTrue (list_any (is_site cell) self.old) }
        ensures full { IsErrOf result CellsFault.Full ↔ ((list_any (is_site cell) self.old ≡ false) × (length self.old ≡ 32)) }
        ensures err { OnErr result (self.new ≡ self.old) }
    {
        if self.has(&cell) {
            return Err(CellsFault::SameCell);
        }
        if self.entries.is_full() {
            return Err(CellsFault::Full);
        }
        self.entries.push(Entry { station, cell });
        Ok(())
    }

    /// The station that has this cell, or `None` where the cell does not stand.
    pub fn station_of(&self, cell: &Cell) -> Option<u8>
        ensures value { result ≡ station_of cell.now self.now }
        ensures stands { IsSome result ↔ IsTrue (list_any (is_site cell.now) self.now) }
        ensures station { IfSome result (λ station. station ≤ 7) }
    {
        // Reading the entries brings their invariant, that each station is at most 7, into the proof.
        let _ = &self.entries;
        self.first_station(cell)
    }

    /// The number of cells, at most 32.
    pub fn len(&self) -> usize
        ensures value { result ≡ length self.now }
        ensures within { length self.now ≤ 32 }
        ensures none_twice { NoneTwice self.now }
    {
        self.entries.len()
    }

    /// The station and the cell that were added as number `i`, counted from 0.
    pub fn at(&self, i: usize) -> (u8, Cell)
        requires { i < length self.now }
        ensures value { slice_get self.now i ≡ Some (record { station = result.0; cell = result.1 }) }
        ensures station { result.0 ≤ 7 }
    {
        let entry = self.entries.as_slice()[i];
        (entry.station, entry.cell)
    }

    // The station of the first entry with this cell.
    fn first_station(&self, cell: &Cell) -> Option<u8>
        ensures { result ≡ station_of cell.now self.now }
    {
        self.entries
            .as_slice()
            .iter()
            .find(|entry| entry.cell == *cell)
            .map(|entry| entry.station)
    }

    // Whether a cell stands.
    fn has(&self, cell: &Cell) -> bool
        ensures { result ≡ list_any (is_site cell.now) self.now }
    {
        self.entries
            .as_slice()
            .iter()
            .any(|entry| entry.cell == *cell)
    }
}
