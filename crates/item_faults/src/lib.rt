//! Faults of a scenario's messages as changes of the order of its items: each message lost, late, twice and sent again, at every place.
#![tactic(auto)]

mod again;
mod at_once;
mod changes;
mod entries;
mod faults;
mod messages;
mod steps;
mod walk;

pub use again::{cancel, command};
pub use at_once::items_of;
pub use changes::{Fault, Kind, variant};
pub use entries::{Again, Entry};
pub use faults::faults_of;
pub use messages::Message;
pub use steps::{Does, Step, delivered, entries_of, messages_of, senders_of};
