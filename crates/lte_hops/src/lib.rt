//! Forward and backward security of handovers in every run, in the words of TS 33.401 3.1: which keys of phone and
//! other stations a station can not compute.
//!
//! The statements stand in `specs/`. Each function here has an empty body: its contract is a law.
#![tactic(auto)]

mod hops;
mod kasmes;

pub use hops::keys_are_secure_forward_and_backward;
pub use kasmes::every_key_comes_of_its_kasme;
