//! The keys of LTE access security as a model: key terms, the chain of NH, the octets of a key, what
//! can be derived from a set of keys, and the handover table in two readings, in octets and in terms
//! (TS 33.401 7.2.8 and Annex A).
//!
//! The definitions stand in `specs/`. Each function here has an empty body: its contract is a law
//! about them.
#![tactic(auto)]

mod chains;
mod derivable;
mod handovers;
mod numbers;
mod readings;

pub use chains::{chain_numbers, ncc_is_number_modulo_eight};
pub use derivable::{
    KeySet, derivable_keys_come_from_the_set, no_key_above_is_derivable,
    star_is_derivable_from_its_nh,
};
pub use handovers::{phone_shares_the_key, term_lines_are_the_table};
pub use numbers::{eight_steps, least_in_window, least_is_least, steps_reach_least};
pub use readings::{
    lines_are_carried, same_is_equality, term_reading_is_carried, uses_are_carried,
    values_have_32_octets,
};
