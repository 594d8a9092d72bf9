//! What became of phone, stations and core in a run of items with a probe behind it, beside that of a scenario.
#![tactic(auto)]

mod handovers;
mod heals;
mod judging;
mod keys;
pub mod names;
mod packets;
mod same;
mod standing;
mod troubles;

pub use heals::{Heals, serves_again};
pub use judging::{Outcome, Verdict, verdict_of};
pub use packets::{Fate, Fates};
pub use standing::Standing;
pub use troubles::Trouble;
