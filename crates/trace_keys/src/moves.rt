use annex_a_keys::Cell;

/// Where a message goes that tells of keys.
#[derive(Clone, Copy)]
pub enum Where {
    /// KeNB, to a station, at the setup of a context.
    Setup(u8),
    /// KeNB, to a station, for a key change.
    Change(u8),
    /// A station's answer that it took a key change. It carries no key.
    Took(u8),
    /// NH, to a station, in the answer to a path switch.
    Answer(u8),
    /// A station's request to the core, whose answer no tap has. It carries no key.
    Asked(u8),
    /// NH, to a station, in a Handover Request over S1.
    Request(u8),
    /// KeNB*, between two stations, over X2.
    Over(u8, u8),
}

/// What became of a request to the core whose answer no tap has.
#[derive(Clone, Copy)]
pub enum Unanswered {
    /// The core refused it, and made no step.
    Refused,
    /// The core stepped its chain, and the station never got the pair.
    Lost,
    /// The core stepped its chain, and the station has the pair.
    Given,
}

/// One step of the network for a phone.
#[derive(Clone, Copy)]
pub enum Move {
    /// A KeNB of a KASME at a COUNT goes to a station, for a cell of it.
    Renew {
        /// The KASME, by its place among those given.
        kasme: u8,
        /// The uplink NAS COUNT.
        count: u32,
        /// The station.
        station: u8,
        /// The phone's cell.
        cell: Cell,
        /// Whether the core steps its chain at once.
        early: bool,
        /// Whether the KeNB is taken into use.
        taken: bool,
    },
    /// A KeNB of a KASME at a COUNT goes to the serving station, for a key change.
    Offer {
        /// The KASME, by its place among those given.
        kasme: u8,
        /// The uplink NAS COUNT.
        count: u32,
        /// Whether the core steps its chain at once.
        early: bool,
    },
    /// Station and phone take the key change.
    Take,
    /// A path switch that is answered.
    Switch,
    /// A request to the core whose answer no tap has.
    Ask(Unanswered),
    /// A handover over X2 is prepared, at a station and for a cell of it.
    Prepare {
        /// The station.
        station: u8,
        /// The cell.
        cell: Cell,
        /// Whether the phone may come there, and not to the target that was prepared before.
        goes: bool,
    },
    /// The same over S1.
    Require {
        /// The station.
        station: u8,
        /// The cell.
        cell: Cell,
        /// Whether the phone may come there, and not to the target that was prepared before.
        goes: bool,
    },
    /// The phone comes to the target.
    Arrive,
    /// The handover is cancelled or refused.
    Cancel,
    /// A handover, a re-establishment or a resumption within the station, for a cell of it, over the air alone.
    Refresh {
        /// The station.
        station: u8,
        /// The cell.
        cell: Cell,
    },
    /// The connection ends.
    Leave,
}
