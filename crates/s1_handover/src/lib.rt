//! An attempt at an S1 handover at its source (TS 33.401 7.2.8.4.3), each state a type of its own:
//! only an acknowledged attempt commands the phone, and only one that has not commanded is cancelled.
#![tactic(auto)]

mod commanded;
mod opened;
mod ready;

pub use commanded::S1Commanded;
pub use opened::S1Open;
pub use ready::{Order1, S1Ready};
