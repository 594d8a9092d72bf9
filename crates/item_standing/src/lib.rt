//! What the probe finds behind a run of items.
#![tactic(auto)]

mod standing;

pub use standing::standing_of;
