//! The moves of a network for one phone, as far as keys go, in octets (TS 33.401 7.2.8).
#![tactic(auto)]

mod chains;
mod makes;
mod marks;
mod moves;
mod nets;
mod outlook;
mod same;

pub use chains::{Chain, Held, Numbered};
pub use makes::{moved, place_of};
pub use marks::{Mark, mark_of, same_mark};
pub use moves::{Move, Unanswered, Where};
pub use nets::{Done, Net, Offer, Serving, Sight, Target};
pub use outlook::{Outlook, behind, may_show, outlook_of_net};
pub use same::{same_net, same_numbered};
