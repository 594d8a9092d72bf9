// The two cores, and where the context of the phone is.
ghost use Rattle.std.specs.Prelude.{◌≡◌, Option, option_map};
ghost use Rattle.s1x2_rec.specs.Content.{content_of};
ghost use Rattle.core_relocation.specs.Holder.{acting, away, away_at, away_from, closed, closed_if, core_at, core_of_cell, fields_of, held_after, is_next, is_open, moved, moved_by, moved_in, required};

use annex_a_keys::Cell;
use lte_events::{Answer, Cells, CoreAct, Event, Line};
use s1x2_rec::CoreRecord;

/// An open relocation of the context: to which core, and by which attempt of which station.
#[derive(Clone, Copy)]
pub struct Relocation {
    /// The core to which the context is to go.
    pub core: u8,
    /// The source station of the handover.
    pub source: u8,
    /// Its attempt.
    pub attempt: u32,
}

// Where the context is: the core that holds it, and the relocation that is open, if one is.
#[derive(Clone, Copy)]
pub(crate) struct Held {
    pub(crate) holder: u8,
    pub(crate) next: Option<Relocation>,
}

impl Held {
    // The core, where it neither holds the context nor is to get it.
    fn away_from(&self, core: u8) -> Option<u8>
        ensures { result ≡ away_from self.now core }
    {
        if core == self.holder || self.is_next(core) {
            None
        } else {
            Some(core)
        }
    }

    // Whether the context is to go to this core.
    fn is_next(&self, core: u8) -> bool
        ensures { result ≡ is_next self.now.next core }
    {
        match self.next {
            Some(relocation) => relocation.core == core,
            None => false,
        }
    }

    // Whether the open relocation is of this attempt.
    fn is_open(&self, source: u8, attempt: u32) -> bool
        ensures { result ≡ is_open self.now.next source attempt }
    {
        match self.next {
            Some(relocation) => relocation.source == source && relocation.attempt == attempt,
            None => false,
        }
    }

    // A handover to a cell of this core was asked for.
    fn required(&self, core: Option<u8>, source: u8, attempt: u32) -> Held
        ensures { result ≡ required core source attempt self.now }
    {
        let Some(core) = core else {
            return *self;
        };
        if core == self.holder {
            return self.closed();
        }
        let holder = self.holder;
        let next = Some(Relocation {
            core,
            source,
            attempt,
        });
        Held { holder, next }
    }

    // The attempt was cancelled.
    fn cancelled(&self, source: u8, attempt: u32) -> Held
        ensures { result ≡ closed_if (is_open self.now.next source attempt) self.now }
    {
        if self.is_open(source, attempt) {
            self.closed()
        } else {
            *self
        }
    }

    // No relocation is open.
    fn closed(&self) -> Held
        ensures { result ≡ closed self.now }
    {
        Held {
            holder: self.holder,
            next: None,
        }
    }
}

// The core of each station, the cells, and where the context is.
#[derive(Drop)]
pub(crate) struct Cores {
    pub(crate) core_of: [u8; 8],
    pub(crate) cells: Cells,
    pub(crate) held: Held,
}

impl Cores {
    // The core of a station.
    fn core_at(&self, station: u8) -> u8
        ensures { result ≡ core_at self.now.core_of station }
    {
        match self.core_of.get(usize::from(station)) {
            Some(core) => *core,
            None => 0,
        }
    }

    // The core of the station that has a cell.
    fn core_of_cell(&self, cell: &Cell) -> Option<u8>
        ensures { result ≡ core_of_cell self.now cell.now }
    {
        let station = self.cells.station_of(cell)?;
        Some(self.core_at(station))
    }

    // The core that acts in an event, which may deliver a record of this station.
    pub fn acting(&self, from: Option<u8>) -> u8
        ensures { result ≡ acting self.now from }
    {
        match from {
            Some(station) => self.core_at(station),
            None => self.held.holder,
        }
    }

    // The core that an event asks, where it does not hold the context.
    pub fn away(&self, from: Option<u8>, event: &Event) -> Option<u8>
        ensures { result ≡ away self.now from event.now }
    {
        if let Some(station) = from {
            return self.held.away_from(self.core_at(station));
        }
        match event {
            Event::Core(CoreAct::Connect(cell)) => self.away_at(cell),
            _ => None,
        }
    }

    // The core of a cell, where it does not hold the context.
    fn away_at(&self, cell: &Cell) -> Option<u8>
        ensures { result ≡ away_at self.now.held (core_of_cell self.now cell.now) }
    {
        let core = self.core_of_cell(cell)?;
        if core == self.held.holder {
            None
        } else {
            Some(core)
        }
    }

    // Where the context is after an event with this line, in which this core took this record, if it took one.
    pub fn held_after(
        &self,
        core: u8,
        event: &Event,
        taken: &Option<CoreRecord>,
        line: &Line,
    ) -> Held
        ensures { result ≡ held_after self.now core event.now (option_map fields_of taken.now) line.now }
    {
        match line.answer {
            Answer::Done => self.moved(core, event, taken),
            _ => self.held,
        }
    }

    // Where the context is, once an event is done.
    fn moved(&self, core: u8, event: &Event, taken: &Option<CoreRecord>) -> Held
        ensures { result ≡ moved self.now core event.now (option_map fields_of taken.now) }
    {
        match event {
            Event::Deliver(_) => match taken {
                Some(taken) => self.moved_by(core, taken),
                None => self.held,
            },
            Event::Core(act) => self.moved_in(act),
            _ => self.held,
        }
    }

    // Where it is once this core took a record.
    fn moved_by(&self, core: u8, taken: &CoreRecord) -> Held
        ensures { result ≡ moved_by self.now core (fields_of taken.now) }
    {
        match taken {
            CoreRecord::HandoverRequired {
                station,
                attempt,
                cell,
                ..
            } => self
                .held
                .required(self.core_of_cell(cell), *station, *attempt),
            CoreRecord::HandoverCancel {
                source,
                attempt,
                ..
            } => self.held.cancelled(*source, *attempt),
            CoreRecord::HandoverNotify { .. } => Held {
                holder: core,
                next: None,
            },
            _ => self.held,
        }
    }

    // Where it is once the holder did an act.
    fn moved_in(&self, act: &CoreAct) -> Held
        ensures { result ≡ moved_in self.now act.now }
    {
        match act {
            CoreAct::Connect(_) | CoreAct::Release => self.held.closed(),
            _ => self.held,
        }
    }
}
