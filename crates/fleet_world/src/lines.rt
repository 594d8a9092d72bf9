use lte_events::Line;

/// What a fleet answers to an event.
#[derive(Drop)]
pub enum FleetLine {
    /// The phone, and the line of its world.
    Of(u16, Line),
    /// The root of an authentication is a root of this other phone. No world saw the event.
    Taken(u16),
}
