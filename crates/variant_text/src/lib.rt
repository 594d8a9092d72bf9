//! The texts of a scenario's messages and of its variants, a line each.
#![tactic(auto)]

mod faults;
mod healing;
mod joined;
mod lines;
mod messages;
mod outcomes;
mod sent;

pub use lines::{end_line, message_line, scenario_line, trouble_line, variant_line};
