//! The steps of a scenario, by its events and the lines that its run told of them.
#![tactic(auto)]

mod acts;
mod answers;
mod keys;
mod messages;
mod records;
mod steps;

pub use steps::steps_of;
