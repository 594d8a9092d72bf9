//! The ciphering and integrity algorithms of LTE: what a phone is capable of, the priority list of a
//! core or a base station, and the choice between them (TS 33.401 7.2.4.2 and 7.2.4.3, TS 24.301
//! 9.9.3.36).
#![tactic(auto)]

mod algs;
mod caps;
mod choices;
mod priority;

pub use algs::{Algs, Eea};
pub use caps::Caps;
pub use choices::{NoAlgorithm, choose, supports};
pub use priority::Priority;
