//! What holds of every run of the written machine, for every setup and every list of events: chain
//! numbers, agreement of phone and stations, packets that open, freshness of key uses, and who can derive
//! which key.
//!
//! The statements stand in `specs/`. Each function here has an empty body: its contract is a law.
#![tactic(auto)]

mod accounts;
mod by_steps;
mod chain;
mod headline;
mod in_octets;
mod keys_agree;
mod keys_shared;
mod keys_told;
mod one_chain;
mod packets_open;
mod reach;
mod second_case;
mod separation;
mod uses_differ;

pub use accounts::{holders_derived_or_received_each_key, uses_are_those_of_the_records_sent};
pub use by_steps::each_step_of_a_run_agrees;
pub use chain::chain_numbers_hold_in_every_run;
pub use headline::the_headline_holds;
pub use in_octets::runs_in_octets_keep_what_terms_do;
pub use keys_agree::phone_and_target_agree_in_every_run;
pub use keys_shared::only_source_and_target_share_the_key_in_every_run;
pub use keys_told::lines_tell_the_keys_in_every_run;
pub use one_chain::connections_have_one_chain_in_every_run;
pub use packets_open::packets_open_to_what_was_sent_in_every_run;
pub use reach::every_event_reaches_an_actor_of_the_setup;
pub use second_case::the_octets_decide_at_a_starting_station_alone;
pub use separation::{keys_are_given_as_tried_in_every_run, separation_holds_in_every_run};
pub use uses_differ::no_use_comes_twice_in_every_run;
