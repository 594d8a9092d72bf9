//! The report of a fleet: what each phone does on each event of a list, line after line, and after the last
//! all keys of each phone with their holders.
#![tactic(auto)]

mod laws;
mod lines;
mod reports;

pub use laws::no_phone_sees_another;
pub use reports::write_fleet;
