//! The audit of a run: which station can derive which of its keys by itself.
#![tactic(auto)]

mod audits;
mod lines;

pub use audits::write_audit;
