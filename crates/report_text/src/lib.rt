//! The texts of a report: a line for each event, a coincidence, the rows of the ladder. Each reads the
//! same for ever, so that two reports can be compared line by line.
#![tactic(auto)]

mod appended;
mod coincidences;
mod details;
mod ends;
mod ladders;
mod lines;
mod memory;
mod summaries;

pub use coincidences::chance;
pub use ends::end;
pub use ladders::{form, ladder_text, row_line};
pub use lines::line;
pub use memory::TextMemory;
pub use summaries::{Figure, Tally, summary_line};
