//! The preparations of a target station, each for a phone that may come at an air address: at most
//! eight. A preparation has no call that sends, so a target sends nothing to a phone before it has
//! come.
#![tactic(auto)]

mod origins;
mod prep;
mod preps;

pub use origins::By;
pub use prep::Prep;
pub use preps::Preps;
