//! How far a capture of keys has a lawful history: the plain search.
#![tactic(auto)]

mod ahead;
mod nets;
mod onward;
mod search;
mod taps;
mod telling;
mod told;
mod unsearched;
mod way;
mod widening;

pub use search::{Found, explained, fewer_links_explain_too};
pub use taps::has_tap;
pub use told::Told;
pub use unsearched::Unsearched;
pub use way::way_to;
pub use widening::MOST_NETS;
