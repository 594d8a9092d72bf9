// How a KeNB came about.

/// How an actor came by the key of a step (TS 33.401 7.2.8 and 7.2.9).
#[derive(Clone, Copy)]
pub enum Way {
    /// From KASME at initial context setup.
    Initial,
    /// From the active KeNB.
    Horizontal,
    /// From an unused NH.
    Vertical,
    /// Received from another actor.
    Given,
    /// By the completion of a handover.
    Completed,
    /// By a step of the NH chain at the core.
    Chained,
}
