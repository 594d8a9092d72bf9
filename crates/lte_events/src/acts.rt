use annex_a_keys::Cell;
use rec_base::{Bearer, ShortText, UserText};

/// The kind of a handover.
#[derive(Clone, Copy, PartialEq, Eq)]
pub enum HoKind {
    /// Between two stations over X2 (TS 33.401 7.2.8.4.2).
    X2,
    /// Between two stations through the core over S1 (TS 33.401 7.2.8.4.3).
    S1,
    /// Within one station (TS 33.401 7.2.8.4.1).
    Intra,
}

/// What a phone is made to do.
#[derive(Clone, PartialEq, Eq, Drop)]
pub enum PhoneAct {
    /// Sends a Service Request (TS 24.301 5.6.1).
    ServiceRequest,
    /// Sends the completion of its last handover again.
    ResendComplete,
    /// Leaves its connection.
    GoIdle,
    /// Sends a user packet on a DRB.
    SendUser(Bearer, UserText),
    /// Sends an RRC text on an SRB.
    SendRrc(Bearer, ShortText),
    /// Sends a NAS text.
    SendNas(ShortText),
    /// Skips this many sending COUNTs of a bearer, or of NAS without one.
    Skip(Option<Bearer>, u32),
}

/// What a station is made to do.
#[derive(Clone, PartialEq, Eq, Drop)]
pub enum StationAct {
    /// Opens a handover attempt of this kind to this cell.
    Start(HoKind, Cell),
    /// Sends the handover command of its attempt, for the first time or again.
    Command,
    /// Cancels its attempt.
    Cancel,
    /// Sends a Path Switch Request again, under a new number.
    Ask,
    /// Sends a user packet on a DRB.
    SendUser(Bearer, UserText),
    /// Sends an RRC text on an SRB.
    SendRrc(Bearer, ShortText),
    /// Passes over so many sending COUNTs of a bearer.
    Skip(Bearer, u32),
}

/// What the core is made to do.
#[derive(Clone, PartialEq, Eq, Drop)]
pub enum CoreAct {
    /// Sends a NAS Security Mode Command (TS 24.301 5.4.3).
    StartSmc,
    /// Sets up the context of the phone at the station with this cell.
    Connect(Cell),
    /// Releases the context of the phone.
    Release,
    /// Sends a NAS text.
    SendNas(ShortText),
    /// Passes over so many downlink NAS COUNTs.
    Skip(u32),
}
