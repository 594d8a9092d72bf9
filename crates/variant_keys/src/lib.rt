//! Where keys differ in a scenario and in each of its variants: what is told of that is exactly where the phone takes a key eight or more steps ahead.
#![tactic(auto)]

mod laws;

pub use laws::keys_are_told;
