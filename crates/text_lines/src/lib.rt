//! The lines of a text, and the words of a line.
#![tactic(auto)]

mod lines;
mod words;

pub use lines::{first_feed, first_line};
pub use words::{all_words, first_words, hex_octets, number};
