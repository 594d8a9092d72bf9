//! Two cores: a station belongs to one of them, and the context of the phone, which one core holds, is handed on at
//! an S1 handover to a station of the other.
#![tactic(auto)]

mod cores;
mod laws;
mod lines;
mod log;
mod reports;
mod senders;
mod taken;
mod texts;
mod two;

pub use cores::Relocation;
pub use laws::two_cores_keep_the_headline;
pub use lines::TwoLine;
pub use reports::write_two;
pub use two::Two;
