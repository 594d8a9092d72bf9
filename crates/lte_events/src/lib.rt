//! What passes between the actors and their callers: the inputs and acts of phone, stations and core,
//! their replies and answers, the events of a whole system, what it starts with, and what is reported.
#![tactic(auto)]

mod acts;
mod addresses;
mod answers;
mod classes;
mod events;
mod fleets;
mod heads;
mod inputs;
mod lines;
mod listed;
mod replies;
mod setups;
mod sites;
mod texts;

pub use acts::{CoreAct, HoKind, PhoneAct, StationAct};
pub use addresses::Address;
pub use answers::Answer;
pub use classes::Class;
pub use events::Event;
pub use fleets::FleetEvents;
pub use inputs::{ActorIn, CoreIn, PhoneIn, StationIn};
pub use lines::{Line, Who};
pub use listed::Events;
pub use replies::{ActorOut, KeyNote, Record};
pub use setups::{FirstNcc, Setup, StationSetup};
pub use sites::{Cells, CellsFault};
pub use texts::Texts;
