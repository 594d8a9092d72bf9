//! Ladder texts: lines that derive keys from a KASME on, each answered with its row.
#![tactic(auto)]

mod answer;
mod asked;
mod derivations;
mod ending;
mod key;
mod line;
mod report;
mod text;

pub use answer::write_answer;
pub use ending::Ending;
pub use line::LadderLine;
