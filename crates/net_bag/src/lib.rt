//! The bag: every record that was ever sent, in order, with what it was sealed under.
#![tactic(auto)]

mod bag;
mod chains;
mod classes;
mod records;
mod search;
mod view;

pub use bag::{Bag, BagMemory};
pub use view::BagView;
