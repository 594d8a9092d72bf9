//! The whole system of one phone, its stations and one core, with every record that was ever sent: one
//! event after the other (TS 33.401 6 to 8).
#![tactic(auto)]

mod faults;
mod network;
mod noting;
mod replies;
mod shelf;
mod show;
mod start;
mod system;
mod world;

pub use faults::WorldFault;
pub use world::World;
