//! A question about the keys of a capture, as a text.
#![tactic(auto)]

mod entries;
mod family;
mod question;
mod reading;
mod text;

pub use entries::{Due, Entry, Site};
pub use family::moves_of;
pub use question::Question;
pub use text::{TextFault, read_lines};
