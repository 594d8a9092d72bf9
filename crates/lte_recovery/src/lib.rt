//! Recovery of the written machine: a fixed list of events after which phone and station have one key again, whatever
//! was lost, late or repeated before.
//!
//! The statements stand in `specs/`. Each function here has an empty body: its contract is a law.
#![tactic(auto)]

mod anew;
mod reconnection;

pub use anew::a_new_authentication_restores_agreement;
pub use reconnection::a_reconnection_restores_agreement;
