//! Scenarios: a TOML text that says what a system of one phone, its stations and one core starts with,
//! and the events that then happen to it, one after the other; and those of a fleet of phones, and of
//! two cores.
#![tactic(auto)]

mod faults;
mod fields;
mod first_steps;
mod generator;
mod journey;
mod kept;
mod keys;
mod reading;
mod refused;
mod setup;
mod steps;
mod systems;
mod turns;
mod values;
mod whole;
mod words;

pub use faults::ScenarioFault;
pub use fields::Field;
pub use generator::generate;
pub use reading::{FleetScenario, Scenario, TwoScenario, read, read_fleet, read_two};
