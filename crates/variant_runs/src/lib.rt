//! A scenario, and what becomes of it with faults of its messages: each variant is a run of the written machine, and each outcome its definition's.
#![tactic(auto)]

mod judging;
mod originals;
mod running;
mod studies;
mod troubles;

pub use studies::Study;
