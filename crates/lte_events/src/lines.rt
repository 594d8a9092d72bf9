use crate::{Answer, Class, KeyNote};
use rec_base::UserText;

/// Who acted in an event.
#[derive(Clone, Copy, PartialEq, Eq)]
pub enum Who {
    /// Phone and core, at an authentication.
    Both,
    /// None of the actors: the event was refused before.
    World,
    /// The phone.
    Phone,
    /// The core.
    Core,
    /// A station, 0 to 7.
    Station(u8),
}

/// What a report says of one event.
#[derive(Drop)]
pub struct Line {
    /// The number of the event, counted from 0.
    pub step: u32,
    /// Who acted.
    pub who: Who,
    /// What was answered.
    pub answer: Answer,
    /// The number of the record sent, if one was, and the interface that it was sent on.
    pub sent: Option<(u32, Class)>,
    /// The text of the user packet, RRC text or NAS text that was accepted, if one was.
    pub opened: Option<UserText>,
    /// What is told of a key.
    pub note: Option<KeyNote>,
    /// Whether the capabilities in a Path Switch Request are not those of the phone's latest
    /// authentication (TS 33.401 7.2.4.2.2).
    pub alarm: bool,
}
