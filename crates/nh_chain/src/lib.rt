//! The chain of NH keys of TS 33.401 7.2.8 as types that guard against slips: only a chain that has
//! KASME makes an NH, a pair of NH and NCC is used once, and a station's key derives vertically where
//! a pair is stored.
#![tactic(auto)]

mod chain;
mod core_chain;
mod pair;
mod phone_chain;
mod station_key;

pub use core_chain::CoreChain;
pub use pair::{NhPair, Spent};
pub use phone_chain::PhoneChain;
pub use station_key::StationKey;
