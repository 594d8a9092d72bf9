/// How a report ends.
#[derive(Clone, Copy)]
pub enum Ending {
    /// After all events, with what it says of them as a whole.
    Done,
    /// At a coincidence, which was written.
    Chance,
}
