//! The ciphering and integrity algorithms of TS 33.401 Annex B under one call each: EEA0 to EEA3 and EIA0 to EIA3.
#![tactic(auto)]

mod ciphering;
mod given_key;
mod integrity;
mod laws;
mod protecting;

pub use ciphering::Ciphering;
pub use given_key::GivenKey;
pub use integrity::Integrity;
pub use laws::{are_those_of_nas_guard, ciphered_twice_is_the_text};
pub use protecting::{cipher, mac};
