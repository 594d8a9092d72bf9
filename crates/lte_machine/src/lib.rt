//! The written machine of LTE access security after authentication: what the phone, a base station and
//! the core do on every input, what the network does, and what a run is. It is definitions, in `specs/`.
//!
//! Each function here has an empty body: its contract is a law about them.
#![tactic(auto)]

mod by_event;
mod calls;
mod ladder_rows;
mod refusals;
mod runs;

pub use by_event::{
    a_run_goes_event_by_event, each_line_is_that_of_its_step, the_run_in_octets_goes_on_in_a_value,
};
pub use calls::{replies_are_kept, turns_are_calls};
pub use ladder_rows::{every_key_was_reported, rows_stand_for_the_distinct_terms};
pub use refusals::{refused_core_step, refused_phone_step, refused_station_step};
pub use runs::{report_in_octets_is_the_value, run_in_octets_is_the_value};
