//! The protection of NAS messages (TS 24.301 4.4, TS 33.401 8.1): sealing and opening under the keys
//! and the COUNTs of a security context, and the two algorithms under an algorithm key.
#![tactic(auto)]

mod ciphers;
mod keys;
mod laws;
mod opening;
mod sealing;

pub use ciphers::{cipher, mac, mac_behind};
pub use keys::NasKeys;
pub use laws::{ciphered_twice_is_the_text, sealed_opens};
pub use opening::{OpenFault, Opened, open};
pub use sealing::{NasPdu, seal};
