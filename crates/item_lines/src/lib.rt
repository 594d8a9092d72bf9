//! The lines of a run of items, each with the name of its item, and what is read from them by these names.
#![tactic(auto)]

mod lines;
mod same;

pub use lines::{
    Told, is_done, is_key, is_no_ue, line_of, note_in, opens, opens_to, parts, phone_note,
    same_air, station_note,
};
pub use same::same_told;
