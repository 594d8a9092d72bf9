//! The ladder: the list of all keys that were derived, each with its derivation.
#![tactic(auto)]

mod index;
mod ladder;
mod proof;
mod row;
mod words;

pub use ladder::{Ladder, LadderFault};
pub use proof::Proof;
pub use row::{Holder, LadderRow, Origin, Row};
