//! The report of a run: what a system does on each event of a list, line after line, and after the last
//! all keys with their holders.
#![tactic(auto)]

mod courses;
mod endings;
mod reports;
mod summaries;
mod unwritten;

pub use courses::{Course, run_through};
pub use endings::Ending;
pub use reports::{
    has_counts, write_coincidence, write_end, write_event, write_lines, write_run, write_text,
};
pub use summaries::write_summary;
pub use unwritten::Unwritten;
