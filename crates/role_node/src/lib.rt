//! An actor that is served over a port: frames are read, each is a step of the actor, and each reply is written.
#![tactic(auto)]

mod actor;
mod serving;

pub use actor::Actor;
pub use serving::{ServeEnd, serve};
