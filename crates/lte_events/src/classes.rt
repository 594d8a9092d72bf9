/// The interface that a record is sent on.
#[derive(Clone, Copy)]
pub enum Class {
    /// NAS, between phone and core (TS 24.301).
    Nas,
    /// The radio interface, between phone and station (TS 36.331 and TS 36.323).
    Air,
    /// S1, between station and core (TS 36.413).
    S1,
    /// X2, between stations (TS 36.423).
    X2,
}
