//! The six radio bearers of a connection, at the phone and at a station (TS 36.323 4.2.1, TS 36.331
//! 4.2.2): SRB1, SRB2 and DRB1 to DRB4, each by its code; and what an actor sends on them and tells of them.
#![tactic(auto)]

mod answers;
mod bearers;
mod sending;

pub use answers::{answer_of, packet_text, verified_use};
pub use bearers::{Bearers, is_srb, is_srb1};
