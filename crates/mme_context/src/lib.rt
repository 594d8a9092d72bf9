//! The core: NAS security with the phone, the chain of NH keys of its connection, and the records on S1
//! (TS 24.301 5.4.3, TS 33.401 7.2.8 and 7.2.9.2, TS 36.413).
#![tactic(auto)]

mod acts;
mod key_change;
mod link;
mod mme;
mod nas;
mod records;
mod sends;

pub use mme::Core;
