//! A fleet: many phones over the same stations and one core. Stations and core keep a state for each phone,
//! with numbers of its own, so that no phone sees another: a phone's lines are those of a system of its own.
#![tactic(auto)]

mod faults;
mod fleet;
mod lines;
mod meeting;
mod worlds;

pub use faults::FleetFault;
pub use fleet::Fleet;
pub use lines::FleetLine;
