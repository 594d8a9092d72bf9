//! All choices of so many faults of a list, each once, in their order.
#![tactic(auto)]

mod sets;

pub use sets::{Choice, Sets};
