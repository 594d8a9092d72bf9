//! Runs of items: what a list of acts, and of deliveries of what other items sent, comes to in a system.
#![tactic(auto)]

mod courses;
mod events;
mod reach;
mod sent;

pub use courses::{Course, run_items};
pub use sent::Sent;
